//! Tables as JSON.
use scale_info::{append_json, append_json_of, from_json, from_json_text, to_json};
use serde_json::Value;
use std::alloc::Global;
use std::fmt::Debug;
use std::test::Fail;
use test_common::held::Held;
use test_memory_common::answers::{done, encoded, failed};
use test_memory_common::inputs::{bytes_of, output, table_of};
use test_memory_common::outcomes::Outcome;
use test_memory_common::{answered, marked};

/// The tree of a table.
fn tree_of(rt: &HostRuntime, row: &str) -> Result<Outcome, Fail> {
    let table = Held(table_of(rt.alloc(), row)?);
    answered!(
        rt;
        to_json(rt.alloc(), &table.0);
        tree => done(tree.to_string(rt.alloc()))
    )
}

/// The tree of a text that comes after the word "text", or else of the table of this name.
fn tree(alloc: Global, row: &str) -> Result<Value, Fail> {
    match row.strip_prefix("text ") {
        Some(text) => Ok(Value::from_str(alloc, text)?),
        None => Ok(to_json(alloc, &table_of(alloc, row)?)?),
    }
}

/// The table of a tree.
fn table_from(rt: &HostRuntime, row: &str) -> Result<Outcome, Fail> {
    let tree = Held(tree(rt.alloc(), row)?);
    let returned = marked!(rt; from_json(rt.alloc(), &tree.0));
    Outcome::of(encoded(rt.alloc(), returned))
}

/// The text that comes after the word "text", or else that of the table of this name.
fn text(alloc: Global, row: &str) -> Result<String, Fail> {
    match row.strip_prefix("text ") {
        Some(text) => Ok(String::from_str(alloc, text)?),
        None => {
            let text = append_json(&table_of(alloc, row)?, Vec::new(alloc))?;
            Ok(String::from_utf8(text)?)
        }
    }
}

/// The table of a text.
fn table_from_text(rt: &HostRuntime, row: &str) -> Result<Outcome, Fail> {
    let text = text(rt.alloc(), row)?;
    let returned = marked!(rt; from_json_text(rt.alloc(), text.as_str()));
    Outcome::of(encoded(rt.alloc(), returned))
}

/// A text that was appended to the byte `aa`, with the byte before it in hexadecimal.
pub fn appended(alloc: Global, bytes: &[u8]) -> Result<String, Fail> {
    let Some((first, text)) = bytes.split_first() else {
        return Err(Fail::new("the byte before the text is gone"));
    };
    let text = str::from_utf8(text)?;
    let first = hex::encode(alloc, &[*first])?;
    Ok(format!(in alloc; "{first} {text}")?)
}

/// The outcome of a text that was appended, or of an error.
fn written<E: Debug + Drop>(alloc: Global, returned: Result<Vec<u8>, E>) -> Result<Outcome, Fail> {
    let answer = match returned {
        Ok(bytes) => done(Ok(appended(alloc, &bytes)?)),
        Err(error) => failed(alloc, &error),
    };
    Outcome::of(answer)
}

/// The text of a table.
fn text_of(rt: &HostRuntime, row: &str) -> Result<Outcome, Fail> {
    let table = Held(table_of(rt.alloc(), row)?);
    let out = output(rt.alloc())?;
    let returned = marked!(rt; append_json(&table.0, out));
    written(rt.alloc(), returned)
}

/// The text of a table from its bytes.
fn text_of_bytes(rt: &HostRuntime, row: &str) -> Result<Outcome, Fail> {
    let bytes = bytes_of(rt.alloc(), row)?;
    let out = output(rt.alloc())?;
    let returned = marked!(rt; append_json_of(rt.alloc(), &bytes, out));
    let text = match returned {
        Ok((text, _)) => Ok(text),
        Err(error) => Err(error),
    };
    written(rt.alloc(), text)
}

/// Makes the call of this name on the JSON of a table.
pub fn call(rt: &HostRuntime, name: &str, input: &str) -> Result<Outcome, Fail> {
    match name {
        "to_json" => tree_of(rt, input),
        "from_json" => table_from(rt, input),
        "from_json_text" => table_from_text(rt, input),
        "append_json" => text_of(rt, input),
        "append_json_of" => text_of_bytes(rt, input),
        _ => Err(Fail::new("no call has this name")),
    }
}
