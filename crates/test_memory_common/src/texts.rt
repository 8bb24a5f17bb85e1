//! Texts in rows, each between brackets, and texts of the program.
use std::alloc::{AllocError, Global};
use std::test::Fail;

/// The texts between brackets, in order, as of `[hello] [world]`; none of a row without brackets.
pub fn bracketed(alloc: Global, row: &str) -> Result<Vec<&str>, AllocError> {
    let mut texts = Vec::new(alloc);
    for piece in row.split('[').skip(1) {
        let (text, _) = piece.split_once(']').unwrap_or((piece, ""));
        texts.push(text)?;
    }
    Ok(texts)
}

/// The texts of a program that rows name: identities and paths in the form of the program hold
/// such texts.
const TEXTS: &str = "\
Planet|hello|world|hello::world|goodbye|Moon|x|a|b|c|a::a|a::b|a::b::c::d|E|9|9::world|nine\
|hello$!@$::world|::a|a::::b|a:::b|a::|Hello|World|_|r#mod|r#S|, World!|Earth|::world|1|2||Vec\
|array";

/// The text of the program that equals this text.
pub fn of_program(text: &str) -> Result<&'static str, Fail> {
    for it in TEXTS.split('|') {
        if it == text {
            return Ok(it);
        }
    }
    Err(Fail::new("the program has no such text"))
}

/// The texts of the program between brackets, in order.
pub fn all_of_program(alloc: Global, row: &str) -> Result<Vec<&'static str>, Fail> {
    let mut texts = Vec::new(alloc);
    for text in bracketed(alloc, row)? {
        texts.push(of_program(text)?)?;
    }
    Ok(texts)
}
