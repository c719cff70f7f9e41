//! Operation codes and error codes (Q.773 4.2.2).

ghost use Rattle.std.specs.Prelude.{◌≡◌, ℤ, IfOk, IsOk};
ghost use Rattle.tcap_parts.specs.declared.code.Code.TheVariants as Code;
ghost use Rattle.tcap_ber.specs.Reading.{Gives, span};
ghost use Rattle.tcap_parts.specs.Meaning.{code_of};
ghost use Rattle.tcap_parts.specs.Reading.{code_at};

use crate::short_integer::short_integer;
use crate::tags::{INTEGER, OBJECT_ID};
use std::alloc::{AllocError, Global};
use tcap_ber::{
    Fault, ObjectId, ObjectIdView, Reason, Window, object_id, required_any, small_integer,
};

/// An operation code or an error code.
#[derive(Debug, Drop)]
pub enum Code {
    /// A local code, an INTEGER of one to four octets.
    Local(i32),
    /// A global code, an OBJECT IDENTIFIER.
    Global(ObjectId),
}

/// An operation code or an error code. A global one is borrowed.
#[derive(Clone, Copy, Debug)]
pub enum CodeView<'a> {
    /// A local code, an INTEGER of one to four octets.
    Local(i32),
    /// A global code, an OBJECT IDENTIFIER.
    Global(ObjectIdView<'a>),
}

/// Reads the code at the front of a window, in any form. Returns it and the window after it.
#[tactic(auto, unfolding(crate::specs::Reading::code_at))]
#[inline(never)]
fn code_of_any_form(window: Window) -> Result<(CodeView, Window), Fault>
    ensures exact { Gives (λ x. (code_of x.0, span x.1)) result (code_at (span window.entry)) }
{
    let (found, rest) = required_any(window)?;
    if found.tag.is(INTEGER) {
        let local = small_integer(found, 4, Reason::CodeTooWide)?;
        Ok((CodeView::Local(local), rest))
    } else if found.tag.is(OBJECT_ID) {
        Ok((CodeView::Global(object_id(found)?), rest))
    } else {
        Err(found.refused(Reason::UnexpectedTag))
    }
}

/// Reads the code at the front of a window (Q.773 4.2.2). Returns it and the window after it. A local code of one octet
/// takes a fast path.
#[inline(always)]
pub(crate) fn read_code(window: Window) -> Result<(CodeView, Window), Fault>
    ensures exact { Gives (λ x. (code_of x.0, span x.1)) result (code_at (span window.entry)) }
{
    match short_integer(window.octets) {
        Some(local) => Ok((CodeView::Local(i32::from(local)), window.behind(3))),
        None => code_of_any_form(window),
    }
}

impl<'a> CodeView<'a> {
    /// Copies the code into an owned value. A local code does not allocate.
    ///
    /// # Errors
    ///
    /// `AllocError` if memory runs out.
    pub fn to_code(self, alloc: Global) -> Result<Code, AllocError>
        ensures made { IfOk result (λ code. code ≡ code_of self.entry) }
        ensures local { (n : ℤ) → code_of self.entry ≡ Code.Local n → IsOk result }
    {
        match self {
            CodeView::Local(local) => Ok(Code::Local(local)),
            CodeView::Global(id) => Ok(Code::Global(id.to_object_id(alloc)?)),
        }
    }
}

impl Code {
    /// Returns a view of the code.
    pub fn view(&self) -> CodeView<'_>
        ensures { code_of result ≡ self.now }
    {
        match self {
            Code::Local(local) => CodeView::Local(*local),
            Code::Global(id) => CodeView::Global(id.view()),
        }
    }

    /// Copies the code. A local code does not allocate.
    ///
    /// # Errors
    ///
    /// `AllocError` if memory runs out.
    pub fn copy(&self, alloc: Global) -> Result<Code, AllocError>
        ensures made { IfOk result (λ code. code ≡ self.now) }
        ensures local { (n : ℤ) → self.now ≡ Code.Local n → IsOk result }
    {
        self.view().to_code(alloc)
    }
}
