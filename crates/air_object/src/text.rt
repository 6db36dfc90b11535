//! JSON values read from a text.
ghost use Rattle.std.specs.Prelude.{◌≡◌, ◌<◌, ◌≤◌, ◌∷◌, length, Err, Some, None, IfOk, OnOk};
ghost use Rattle.json.specs.Reads.{token_of};
ghost use Rattle.serde_json.specs.View.{view, items_view, members_view};
ghost use Rattle.air_object.specs.Begun.{IsBegun, value_at, items_at, members_at};

use crate::number::number_of;
use json::{Invalid, Reader, Token};
use serde_json::{Map, Value};
use std::alloc::{AllocError, AllocFailed, Global};

/// Why a text can't be read.
#[derive(Clone, Copy, Debug, PartialEq, Eq, Drop)]
pub enum TextFault {
    /// It is not a JSON value.
    Json,
    Memory,
}

impl From<Invalid> for TextFault {
    ghost use Rattle.air_object.specs.declared.text.TextFault.TheVariants.{Json};

    ghost from_gives = { λ _ e. e ≡ Json };

    fn from(_invalid: Invalid) -> TextFault {
        TextFault::Json
    }
}

impl From<AllocError> for TextFault {
    ghost use Rattle.air_object.specs.declared.text.TextFault.TheVariants.{Memory};

    ghost from_gives = { λ _ e. e ≡ Memory };

    fn from(_refused: AllocError) -> TextFault {
        TextFault::Memory
    }
}

impl<T: Drop> From<AllocFailed<T>> for TextFault {
    ghost use Rattle.air_object.specs.declared.text.TextFault.TheVariants.{Memory};

    ghost from_gives = { λ _ e. e ≡ Memory };

    fn from(_refused: AllocFailed<T>) -> TextFault {
        TextFault::Memory
    }
}

/// The beginning of a value.
#[derive(Drop)]
pub enum Beginning {
    /// An array; its items may be nested at most this many levels.
    Array(usize),
    /// Any other value, read to its end.
    Other(Value),
}

/// Reads the beginning of the next value.
pub fn read_beginning(
    alloc: Global,
    reader: &mut Reader<'_>,
    depth: usize,
) -> Result<Beginning, TextFault>
    ensures ok { IfOk result (IsBegun depth reader.old reader.new) }
    ensures shorter { OnOk result (length reader.new < length reader.old) }
    ensures err { result ≡ Err TextFault.Json → value_at depth reader.old ≡ None }
{
    let token = reader.next().ok_or(TextFault::Json)?;
    if let Token::BeginArray = token {
        if depth == 0 {
            return Err(TextFault::Json);
        }
        return Ok(Beginning::Array(depth - 1));
    }
    let other = read_from(alloc, token, reader, depth)?;
    Ok(Beginning::Other(other))
}

/// Reads the next value.
#[cycle(read)]
pub fn read(alloc: Global, reader: &mut Reader<'_>, depth: usize) -> Result<Value, TextFault>
    ensures ok { IfOk result (λ v. value_at depth reader.old ≡ Some (view v, reader.new)) }
    ensures shorter { OnOk result (length reader.new < length reader.old) }
    ensures err { result ≡ Err TextFault.Json → value_at depth reader.old ≡ None }
{
    let token = reader.next().ok_or(TextFault::Json)?;
    read_from(alloc, token, reader, depth)
}

/// Reads the value that begins with `token`, which the reader has already passed.
#[cycle(read)]
pub fn read_from(
    alloc: Global,
    token: Token<'_>,
    reader: &mut Reader<'_>,
    depth: usize,
) -> Result<Value, TextFault>
    ensures ok { IfOk result (λ v. value_at depth (token_of token.entry ∷ reader.old)
        ≡ Some (view v, reader.new)) }
    ensures shorter { OnOk result (length reader.new ≤ length reader.old) }
    ensures err { result ≡ Err TextFault.Json
        → value_at depth (token_of token.entry ∷ reader.old) ≡ None }
{
    match token {
        Token::String(text) => Ok(Value::String(String::from_str(alloc, text)?)),
        Token::Number(text) => match number_of(text) {
            Some(number) => Ok(Value::Number(number)),
            None => Err(TextFault::Json),
        },
        Token::Bool(b) => Ok(Value::Bool(b)),
        Token::Null => Ok(Value::Null),
        Token::EndObject | Token::EndArray | Token::Key(_) | Token::Bad => Err(TextFault::Json),
        Token::BeginArray => {
            if depth == 0 {
                return Err(TextFault::Json);
            }
            Ok(Value::Array(read_items(alloc, reader, depth - 1)?))
        }
        Token::BeginObject => {
            if depth == 0 {
                return Err(TextFault::Json);
            }
            Ok(Value::Object(read_members(alloc, reader, depth - 1)?))
        }
    }
}

#[cycle(read)]
fn read_items(alloc: Global, reader: &mut Reader<'_>, depth: usize) -> Result<Vec<Value>, TextFault>
    ensures ok { IfOk result (λ v. items_at depth reader.old
        ≡ Some (items_view v.items, reader.new)) }
    ensures shorter { OnOk result (length reader.new < length reader.old) }
    ensures err { result ≡ Err TextFault.Json → items_at depth reader.old ≡ None }
{
    let mut found = Vec::new(alloc);
    'items: while !reader.take_end_array() {
        let item = read(alloc, reader, depth)?;
        found.push(item)?;
    }
    Ok(found)
}

#[cycle(read)]
fn read_members(
    alloc: Global,
    reader: &mut Reader<'_>,
    depth: usize,
) -> Result<Map<String, Value>, TextFault>
    ensures ok { IfOk result (λ m. members_at depth reader.old
        ≡ Some (members_view m.entries, reader.new)) }
    ensures shorter { OnOk result (length reader.new < length reader.old) }
    ensures err { result ≡ Err TextFault.Json → members_at depth reader.old ≡ None }
{
    let mut found = Map::new(alloc);
    'members: while let Some(name) = reader.next_key()? {
        let key = String::from_str(alloc, name)?;
        let member = read(alloc, reader, depth)?;
        drop(found.insert(key, member)?);
    }
    Ok(found)
}
