//! The names of testcases in JUnit XML, which stay the same from run to run.
//!
//! Each function that returns `AllocError` does so if memory runs out.

use crate::xml::push_value;
use std::alloc::{AllocError, Global};
use std::collections::BTreeMap;

/// The folder of a trace whose path has none.
const NO_FOLDER: &str = "traces";

/// The names that testcases have so far.
#[derive(Debug, Drop)]
pub(crate) struct CaseNames {
    alloc: Global,
    // The attributes of each testcase, without the last quote, and the number that is tried first if they come again.
    used: BTreeMap<String, u64>,
}

/// Returns the folder and the file name of a trace. If its path has only one of them, the name is the path.
fn parts_of(trace: &str) -> (&str, &str) {
    match trace.rsplit_once('/') {
        Some((folder, name)) if !folder.is_empty() && !name.is_empty() => (folder, name),
        _ if trace == "-" => (NO_FOLDER, "standard input"),
        _ => (NO_FOLDER, trace),
    }
}

/// Returns the class name for a folder. CI systems show a class name as a path with dots.
fn class_of(alloc: Global, folder: &str) -> Result<String, AllocError> {
    let mut class = String::new(alloc);
    for c in folder.chars() {
        class.push(match c {
            '.' => '_',
            '/' => '.',
            c => c,
        })?;
    }
    Ok(class)
}

/// Returns the attributes of a trace's testcase, without the last quote.
fn attributes_of(alloc: Global, trace: &str) -> Result<String, AllocError> {
    let (folder, name) = parts_of(trace);
    let class = class_of(alloc, folder)?;
    let mut xml = String::from_str(alloc, "classname=\"")?;
    push_value(&mut xml, &class)?;
    xml.push_str("\" name=\"")?;
    push_value(&mut xml, name)?;
    Ok(xml)
}

/// Returns attributes with a number after them, unless the number is 1.
fn numbered(alloc: Global, attributes: &str, number: u64) -> Result<String, AllocError> {
    let mut own = String::from_str(alloc, attributes)?;
    if number > 1 {
        write!(own, " ({number})")?;
    }
    Ok(own)
}

impl CaseNames {
    /// Creates the names of no testcase.
    pub(crate) fn new(alloc: Global) -> CaseNames {
        CaseNames {
            alloc,
            used: BTreeMap::new(alloc),
        }
    }

    /// Notes that a testcase has these attributes, and the number that is tried first if they come again.
    fn note(&mut self, attributes: &str, next: u64) -> Result<(), AllocError> {
        let attributes = String::from_str(self.alloc, attributes)?;
        self.used.insert(attributes, next)?;
        Ok(())
    }

    /// Appends the attributes of a trace's testcase. No earlier testcase has them: a number follows the name of a file
    /// that comes again.
    pub(crate) fn push(&mut self, xml: &mut String, trace: &str) -> Result<(), AllocError> {
        let attributes = attributes_of(self.alloc, trace)?;
        let first = self.used.get(attributes.as_str()).copied().unwrap_or(1);
        for number in first..u64::MAX {
            let own = numbered(self.alloc, &attributes, number)?;
            if !self.used.contains_key(own.as_str()) {
                self.note(&own, 2)?;
                self.note(&attributes, number.saturating_add(1))?;
                xml.push_str(&own)?;
                return xml.push_str("\"");
            }
        }
        xml.push_str(&attributes)?;
        xml.push_str("\"")
    }
}
