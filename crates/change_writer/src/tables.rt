// Tables of a file of changes, made key by key.
ghost use Rattle.std.specs.Prelude.{◌≡◌, ◌<◌, ◌^◌, [], ◌∷◌, IfOk, OnOk, IsUtf8, Err, pos};
ghost use Rattle.toml.specs.Data.{string, integer, no_members};
ghost use Rattle.toml.specs.View.{table_view, view};
ghost use Rattle.change_writer.specs.Members.{with_member};
ghost use Rattle.change_writer.specs.declared.fault.WriteFault.TheVariants.{Unsaid};

use crate::WriteFault;
use std::alloc::{AllocError, Global};
use toml::{Table, Value};

/// A table without a key.
pub fn no_table(alloc: Global) -> Table
    ensures { table_view result ≡ no_members }
{
    Table::new(alloc)
}

/// The table with a value at one key more.
#[tactic(auto, using(crate::proofs::Inserted::inserted_member))]
pub fn with(alloc: Global, table: Table, key: &str, value: Value) -> Result<Table, AllocError>
    ensures { IfOk result (λ t. table_view t ≡ with_member key.now (view value) (table_view table)) }
{
    let mut table = table;
    let key = String::from_str(alloc, key)?;
    match table.insert(key, value) {
        Ok(_) => Ok(table),
        Err(_) => Err(AllocError),
    }
}

/// The text as a value, where it is one.
pub fn text(alloc: Global, bytes: &[u8]) -> Result<Value, WriteFault>
    ensures text { IfOk result (λ v. view v ≡ string bytes.now) }
    ensures said { OnOk result (IsUtf8 bytes.now) }
    ensures unsaid { result ≡ Err Unsaid → ¬ (IsUtf8 bytes.now) }
{
    match str::from_utf8(bytes) {
        Ok(text) => Ok(Value::String(String::from_str(alloc, text)?)),
        Err(_) => Err(WriteFault::Unsaid),
    }
}

/// A number as a value.
pub fn number(number: u64) -> Value
    requires { number < 2 ^ 63 }
    ensures { view result ≡ integer (pos number) }
{
    Value::Integer(number as i64)
}

/// One letter as a value.
pub fn letter(alloc: Global, letter: u8) -> Result<Value, AllocError>
    requires { letter < 128 }
    ensures { IfOk result (λ v. view v ≡ string (letter ∷ [])) }
{
    let mut text = String::new(alloc);
    text.push(letter as char)?;
    Ok(Value::String(text))
}
