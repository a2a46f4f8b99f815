// A file of changes, made change by change.
ghost use Rattle.std.specs.Prelude.{◌≡◌, ℕ, List, [], ◌∷◌, ◌++◌, Some, Ok, Err, IfOk, OnOk, OnErr, string_bytes};
ghost use Rattle.change_file.specs.Changes as file;
ghost use Rattle.change_file.specs.Named.{selector_named};
ghost use Rattle.change_file.specs.declared.fault.FileChange.TheVariants.{Change as FileChange};
ghost use Rattle.change_writer.specs.Comments.{comments};
ghost use Rattle.change_writer.specs.Said.{IsSaid, read_back};
ghost use Rattle.change_writer.specs.declared.fault.WriteFault.TheVariants.{Unsaid};

use crate::WriteFault;
use crate::changes::{change as table_of, remove_named};
use crate::tables::{no_table, with};
use host_types::Change;
use std::alloc::{AllocError, Global};
use std::marker::Model;
use toml::Value;

/// A file of changes that is being made. It is seen as what its changes are read back as.
#[derive(Drop)]
pub struct ChangeWriter {
    alloc: Global,
    tables: Vec<Value>,
}

impl Model for ChangeWriter {
    ghost use Rattle.std.specs.Prelude.{List, ◌≤◌, IsSome};
    ghost use Rattle.change_file.specs.declared.fault.FileChange.{FileChange};
    ghost use Rattle.change_writer.specs.Writer.{changes_in, all_read, tables_depth};

    ghost Value = { List FileChange };

    ghost view = { λ w. changes_in w.tables.items };

    ghost invariant = { λ w. IsSome (all_read w.tables.items) × (tables_depth w.tables.items ≤ 5) };
}

impl ChangeWriter {
    /// A file without changes.
    pub fn new(alloc: Global) -> Self
        ensures { result ≡ [] }
    {
        ChangeWriter {
            alloc,
            tables: Vec::new(alloc),
        }
    }

    /// Writes a change behind the others, where a file of changes can say it; else it writes nothing.
    pub fn add(&mut self, change: &Change) -> Result<(), WriteFault>
        ensures added { OnOk result (self.new ≡ self.old ++ FileChange (read_back change.now) ∷ []) }
        ensures said { OnOk result (IsSaid change.now) }
        ensures same { OnErr result (self.new ≡ self.old) }
        ensures unsaid { result ≡ Err Unsaid → ¬ (IsSaid change.now) }
    {
        let table = table_of(self.alloc, change)?;
        self.tables.push(Value::Table(table))?;
        Ok(())
    }

    /// Writes behind the others that the item of this name is removed. One that is no selector is refused in its turn.
    pub fn remove(&mut self, name: &str) -> Result<(), WriteFault>
        ensures added { OnOk result (self.new ≡ self.old ++ file.file_change (file.remove (selector_named name.now)) ∷ []) }
        ensures same { OnErr result (self.new ≡ self.old) }
        ensures unsaid { ¬ (result ≡ Err Unsaid) }
    {
        let table = remove_named(self.alloc, name)?;
        self.tables.push(Value::Table(table))?;
        Ok(())
    }

    /// The text of the file, which is read back as its changes, whatever comments stand in front of it.
    pub fn text(self) -> Result<String, AllocError>
        ensures { IfOk result (λ t. (texts : List (List ℕ)) → file.read (comments texts ++ string_bytes t) ≡ Some (Ok self)) }
    {
        let ChangeWriter { alloc, tables } = self;
        let document = with(alloc, no_table(alloc), "change", Value::Array(tables))?;
        match toml::table_to_string_pretty(alloc, &document) {
            Ok(text) => Ok(text),
            Err(_) => Err(AllocError),
        }
    }
}
