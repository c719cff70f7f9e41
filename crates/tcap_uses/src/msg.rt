ghost use Rattle.std.specs.Prelude.{◌≡◌, IfSome};

use std::alloc::Global;
use tcap_ber::Counted;
use tcap_msg::{Message, decode, encode, laws};

/// Writes a message and reads it again. Returns `None` if the message is too long to be written, or if memory runs out.
pub fn read_again(alloc: Global, message: &Message) -> Option<Message>
    // The message that is read is the one that was written.
    ensures same { IfSome result (λ again. again ≡ message.now) }
{
    laws::is_message(message);
    laws::canonical_spelling();
    let mut writer = Counted::new(Vec::new(alloc));
    let Ok(()) = encode(message, &mut writer) else {
        return None;
    };
    match decode(alloc, &writer.into_inner()) {
        Ok((again, _)) => Some(again),
        Err(_) => None,
    }
}
