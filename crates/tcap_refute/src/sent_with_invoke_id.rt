//! What an end sent with one invoke ID, in messages from one transaction ID.

ghost use Rattle.std.specs.Prelude.{◌≡◌, ◌||◌, ℤ, false, OnOk, Some};
ghost use Rattle.tcap_parts.specs.Meaning.{code_of, component_of};
ghost use Rattle.tcap_end.specs.Class.{of_class, reports};
ghost use Rattle.tcap_refute.specs.Facts.{IdFact, noted_id, shows};
ghost use Rattle.tcap_refute.specs.KeptFacts.{id_fact_noted};
ghost use Rattle.tcap_refute.specs.NotesUpdate.{IsInvoked};

use crate::codes::Codes;
use std::alloc::{AllocError, Global};
use tcap_end::{Table, reports};
use tcap_parts::{CodeView, ComponentView};

/// The notes on what an end sent with an invoke ID.
#[derive(Debug, Drop)]
pub(crate) struct ById {
    /// True if it sent an Invoke.
    pub(crate) invoked: bool,
    /// True if it sent a Return Result.
    pub(crate) by_result: bool,
    /// True if it sent a Return Error.
    pub(crate) by_error: bool,
    /// True if it sent an Invoke whose class reports success.
    pub(crate) succeeds: bool,
    /// True if it sent an Invoke whose class reports failure.
    pub(crate) fails: bool,
    /// The operations of its Invokes whose class reports success.
    pub(crate) codes: Codes,
}

/// Returns whether there is a class, and it reports success (if `is_result`) or else failure (Q.771).
fn class_reports(class: Option<u8>, is_result: bool) -> bool
    ensures { result ≡ of_class (reports is_result) class }
{
    match class {
        Some(class) => reports(is_result, class),
        None => false,
    }
}

impl ById {
    /// Creates the notes for an ID with which nothing was sent.
    pub(crate) fn new() -> ById
        ensures { (fact : IdFact) → id_fact_noted fact result ≡ false }
    {
        ById {
            invoked: false,
            by_result: false,
            by_error: false,
            succeeds: false,
            fails: false,
            codes: Codes::new(),
        }
    }

    /// Notes an Invoke of this operation. Fails if memory runs out.
    fn note_invoke(
        &mut self,
        alloc: Global,
        table: &Table,
        code: CodeView,
    ) -> Result<(), AllocError>
        ensures { OnOk result (IsInvoked table.now (code_of code.entry) self.old self.new) }
    {
        self.invoked = true;
        let class = table.class_of(code);
        if class_reports(class, false) {
            self.fails = true;
        }
        if class_reports(class, true) {
            self.succeeds = true;
            self.codes.add(alloc, code)?;
        }
        Ok(())
    }

    /// Notes a component with the ID. Fails if memory runs out.
    pub(crate) fn note(
        &mut self,
        alloc: Global,
        table: &Table,
        component: ComponentView,
    ) -> Result<(), AllocError>
        ensures { (id : ℤ) → noted_id (component_of component.entry) ≡ Some id
            → OnOk result ((fact : IdFact) → id_fact_noted fact self.new
            ≡ id_fact_noted fact self.old || shows table.now id fact (component_of component.entry)) }
    {
        match component {
            ComponentView::Invoke { code, .. } => self.note_invoke(alloc, table, code)?,
            ComponentView::ReturnResult { .. } => self.by_result = true,
            ComponentView::ReturnError { .. } => self.by_error = true,
            ComponentView::Reject { .. } => {}
        }
        Ok(())
    }
}
