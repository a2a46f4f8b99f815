// What is printed of a call.
use crate::trouble::Trouble;
use std::alloc::Global;
use tree_nodes::{EditAnswer, Node};

/// A line that is printed: fields after spaces.
#[derive(Drop)]
pub(crate) struct Shown {
    alloc: Global,
    pub text: String,
}

impl Shown {
    pub fn new(alloc: Global) -> Shown {
        Shown {
            alloc,
            text: String::new(alloc),
        }
    }

    pub fn word(&mut self, word: &str) -> Result<(), Trouble> {
        self.text.push(' ')?;
        self.text.push_str(word)?;
        Ok(())
    }

    pub fn number(&mut self, number: usize) -> Result<(), Trouble> {
        let shown = format!(in self.alloc; "{number}")?;
        self.word(shown.as_str())
    }

    pub fn numbers(&mut self, numbers: &[usize]) -> Result<(), Trouble> {
        for number in numbers {
            self.number(*number)?;
        }
        Ok(())
    }

    pub fn answer(&mut self, answer: EditAnswer) -> Result<(), Trouble> {
        match answer {
            EditAnswer::Done => self.word("done"),
            EditAnswer::Need(page) => {
                self.word("need")?;
                self.number(page as usize)
            }
        }
    }

    /// Bytes by their digits; one that stands eight times or more with `*` and how often.
    pub fn bytes(&mut self, bytes: &[u8]) -> Result<(), Trouble> {
        if bytes.is_empty() {
            return self.word("-");
        }
        self.text.push(' ')?;
        let (mut last, mut count) = (0, 0usize);
        for byte in bytes {
            if *byte != last {
                self.run(last, count)?;
                last = *byte;
                count = 0;
            }
            count = count.saturating_add(1);
        }
        self.run(last, count)
    }

    /// A byte so many times.
    fn run(&mut self, byte: u8, count: usize) -> Result<(), Trouble> {
        if count < 8 {
            for _ in 0..count {
                let digits = format!(in self.alloc; "{byte:02x}")?;
                self.text.push_str(digits.as_str())?;
            }
            return Ok(());
        }
        let run = format!(in self.alloc; "[{byte:02x}*{count}]")?;
        self.text.push_str(run.as_str())?;
        Ok(())
    }

    /// A node: a leaf by the count of its pairs, a page by `#` and its number, a branch by its children between brackets.
    pub fn node(&mut self, node: &Node) -> Result<(), Trouble> {
        match node {
            Node::Page(page) => {
                let shown = format!(in self.alloc; " #{page}")?;
                self.text.push_str(shown.as_str())?;
                Ok(())
            }
            Node::Leaf(pairs) => self.number(pairs.len()),
            Node::Packed(leaf) => self.number(leaf.len()),
            Node::Branch(first, others) => {
                self.word("(")?;
                self.node(first)?;
                for child in others {
                    self.node(&child.1)?;
                }
                self.word(")")
            }
        }
    }
}
