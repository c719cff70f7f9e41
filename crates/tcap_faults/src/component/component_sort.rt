//! The sorts of components that are counted.

/// An operation class (Q.771 3.1), or any class.
#[derive(Clone, Copy, Debug)]
pub enum Class {
    /// Any class.
    Any,
    /// Class 1: success and failure are reported.
    One,
    /// Class 2: only failure is reported.
    Two,
    /// Class 3: only success is reported.
    Three,
}

/// A sort of components with an invoke ID (Q.773 4.2.2).
#[derive(Clone, Copy, Debug)]
pub enum Sort {
    /// Invokes of operations of this class.
    Invokes(Class),
    /// Invokes of operations of this class that do not expire.
    Lasting(Class),
    /// Linked Invokes.
    Linked,
    /// Return Results.
    Results,
    /// Return Results Last.
    LastResults,
    /// Return Results Not Last.
    NotLasts,
    /// Return Errors.
    Errors,
    /// Rejects with a general problem.
    GeneralRejects,
    /// Rejects with an invoke problem.
    InvokeRejects,
    /// Rejects with duplicateInvokeID.
    DuplicateRejects,
    /// Rejects with a problem of a link, 5 to 7.
    LinkRejects,
    /// Rejects with a return result problem.
    ResultRejects,
    /// Rejects with a return error problem.
    ErrorRejects,
}
