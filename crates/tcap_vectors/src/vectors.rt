//! Messages of each kind, with their parts and the lines that `show` prints.

/// The messages, one in each row, with lengths in the shortest form except in `padded_begin`.
///
/// The columns are the name, the octets in hexadecimal digits, the parts, and the lines that `show` prints if end A
/// sent the message. The parts are the kind, the originating and the destination transaction ID, the P-Abort cause,
/// whether there is a dialogue portion, and the count of components. A dash means that the message lacks the part.
pub const VECTORS: &str = r"
begin_with_invoke;620d4801016c08a10602010102012d;Begin 01 - - - 1;0 A Begin otid=01\n  Invoke id=1 op=45\n
padded_begin;62810d4801016c08a10602010102012d;Begin 01 - - - 1;0 A Begin otid=01\n  Invoke id=1 op=45\n
end_with_result;640a4901016c05a203020101;End - 01 - - 1;0 A End dtid=01\n  ReturnResultLast id=1\n
begin_with_request;622d4801016b1e281c060700118605010101a011600f80020780a1090607040000010013026c08a10602010102012d;Begin 01 - - dialogue 1;0 A Begin otid=01 AARQ context=04000001001302\n  Invoke id=1 op=45\n
continue_with_response;65394801024901016b2a2828060700118605010101a01d611b80020780a109060704000001001302a203020100a305a1030201006c05a203020101;Continue 02 01 - dialogue 1;0 A Continue otid=02 dtid=01 AARE context=04000001001302 result=0 user=0\n  ReturnResultLast id=1\n
end_alone;6403490102;End - 02 - - 0;0 A End dtid=02\n
begin_alone;6203480101;Begin 01 - - - 0;0 A Begin otid=01\n
continue_alone;6506480102490101;Continue 02 01 - - 0;0 A Continue otid=02 dtid=01\n
abort_with_cause_1;67064901024a0101;Abort - 02 1 - 0;0 A Abort dtid=02 cause=1\n
continue_with_result;650d4801024901016c05a203020101;Continue 02 01 - - 1;0 A Continue otid=02 dtid=01\n  ReturnResultLast id=1\n
end_with_reject;640d4901026c08a406020101820100;End - 02 - - 1;0 A End dtid=02\n  Reject id=1 result=0\n
continue_with_invoke;65104801014901026c08a10602010102012e;Continue 01 02 - - 1;0 A Continue otid=01 dtid=02\n  Invoke id=1 op=46\n
continue_with_reject;65104801014901026c08a406020101820101;Continue 01 02 - - 1;0 A Continue otid=01 dtid=02\n  Reject id=1 result=1\n
begin_with_invoke_of_47;620d4801016c08a10602010102012f;Begin 01 - - - 1;0 A Begin otid=01\n  Invoke id=1 op=47\n
end_with_error;640d4901016c08a306020101020101;End - 01 - - 1;0 A End dtid=01\n  ReturnError id=1 error=1\n
begin_with_two_invokes;62154801016c10a10602010102012da10602010102012d;Begin 01 - - - 2;0 A Begin otid=01\n  Invoke id=1 op=45\n  Invoke id=1 op=45\n
begin_with_invoke_of_50;620d4801016c08a106020101020132;Begin 01 - - - 1;0 A Begin otid=01\n  Invoke id=1 op=50\n
continue_with_linked_invoke;65134801024901016c0ba109020105800101020130;Continue 02 01 - - 1;0 A Continue otid=02 dtid=01\n  Invoke id=5 linked=1 op=48\n
abort_with_cause_4;67064901014a0104;Abort - 01 4 - 0;0 A Abort dtid=01 cause=4\n
unidirectional_with_invoke;610a6c08a106020101020130;Unidirectional - - - - 1;0 A Unidirectional\n  Invoke id=1 op=48\n
begin_from_03;6203480103;Begin 03 - - - 0;0 A Begin otid=03\n
begin_from_04;6203480104;Begin 04 - - - 0;0 A Begin otid=04\n
end_to_09;6403490109;End - 09 - - 0;0 A End dtid=09\n
continue_from_01;6506480101490102;Continue 01 02 - - 0;0 A Continue otid=01 dtid=02\n
continue_with_reject_of_null;650f4801014901026c07a4050500800100;Continue 01 02 - - 1;0 A Continue otid=01 dtid=02\n  Reject id=null general=0\n
";

/// Returns the hexadecimal digits of the vector with this name, if there is one.
pub fn vector(wanted: &str) -> Option<&'static str> {
    for row in VECTORS.lines() {
        let mut columns = row.split(';');
        if columns.next() == Some(wanted) {
            return columns.next();
        }
    }
    None
}
