//! Tables of cases, as texts. To the proof a text is one constant, however many cases it has, while
//! the parts of a table in rows are each set beside all others.
//!
//! A case is a line `# NAME`, lines that each begin with the word for what they give, and what is
//! wanted: behind `gives` on its line, or in the lines below a line `gives`.

use std::alloc::Global;
use std::test::Fail;

/// The cases of a table, each from its name on.
pub fn cases(alloc: Global, table: &str) -> Result<Vec<&str>, Fail> {
    let mut cases = Vec::new(alloc);
    for case in table.split("# ").skip(1) {
        cases.push(case)?;
    }
    if cases.is_empty() {
        return Err(Fail::new("no cases"));
    }
    Ok(cases)
}

/// The name of a case.
pub fn name(case: &str) -> &str {
    case.lines().next().unwrap_or("")
}

// What stands behind a word that begins this line.
fn behind<'a>(line: &'a str, word: &str) -> Option<&'a str> {
    let (first, more) = line.split_once(' ')?;
    if first == word { Some(more) } else { None }
}

/// What stands behind the word in the first line that begins with it, below the name: nothing where
/// no line does.
pub fn given<'a>(case: &'a str, word: &str) -> &'a str {
    for line in case.lines().skip(1) {
        if let Some(found) = behind(line, word) {
            return found;
        }
    }
    ""
}

/// The same of each line that begins with the word.
pub fn all_given<'a>(alloc: Global, case: &'a str, word: &str) -> Result<Vec<&'a str>, Fail> {
    let mut all = Vec::new(alloc);
    for line in case.lines().skip(1) {
        if let Some(found) = behind(line, word) {
            all.push(found)?;
        }
    }
    Ok(all)
}

/// What is wanted of a case.
pub fn wanted(case: &str) -> &str {
    match case.split_once("gives\n") {
        Some((_, lines)) => lines,
        None => given(case, "gives"),
    }
}

/// The word at a place of a text, and nothing where it has fewer.
pub fn word(text: &str, place: usize) -> &str {
    text.split_whitespace().nth(place).unwrap_or("")
}

/// The number that a word is.
pub fn number(text: &str) -> Result<u32, Fail> {
    Ok(text.parse::<u32>()?)
}

/// The number that the case gives behind this word.
pub fn count(case: &str, word: &str) -> Result<u32, Fail> {
    number(given(case, word))
}
