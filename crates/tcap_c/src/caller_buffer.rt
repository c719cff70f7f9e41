//! Output to the memory of a caller.

ghost use Rattle.std.specs.Prelude.{◌≡◌, length};
ghost use Rattle.tcap_c.specs.Traces.{copied_to_front};

/// Copies octets to the front of `room`, as many as fit, and stores the number of all octets in `len`.
pub(crate) fn copy_to_front(octets: &[u8], room: &mut [u8], len: &mut usize)
    ensures room { room.new ≡ copied_to_front octets.now room.old }
    ensures len { len.new ≡ length octets.now }
{
    *len = octets.len();
    if octets.len() <= room.len() {
        room[..octets.len()].copy_from_slice(octets);
    } else {
        let count = room.len();
        room.copy_from_slice(&octets[..count]);
    }
}
