//! The answers that operations of a class have (Q.771).

ghost use Rattle.std.specs.Prelude.{◌≡◌};
ghost use Rattle.tcap_end.specs.Class.{reports, reports_neither};

/// Returns whether operations of a class report success, by a Return Result (`is_result`), or failure, by a Return
/// Error. Class 1 reports both, 2 failure only, 3 success only, 4 neither; other numbers report nothing (Q.771 3.1).
pub fn reports(is_result: bool, class: u8) -> bool
    ensures { result ≡ reports is_result class }
{
    match class {
        1 => true,
        2 => !is_result,
        3 => is_result,
        _ => false,
    }
}

/// Returns whether operations of a class report neither success nor failure: class 4 (Q.771 3.1).
pub fn reports_neither(class: u8) -> bool
    ensures { result ≡ reports_neither class }
{
    class == 4
}
