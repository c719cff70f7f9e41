//! Records like those of mobile networks: many dialogues at once, begun by both ends, with dialogue portions,
//! parameters and errors, and messages that cross, arrive late or are lost. Each record follows a run, so it is
//! lawful unless faults are requested.

use crate::dice::Dice;
use crate::faults::Faults;
use crate::octets::{ABORT, push_element, push_id, push_request, push_response};
use crate::parts::{Asked, Parts};
use crate::record::{Fate, Made, Side};
use std::alloc::{AllocError, Global};

/// The operation table for all generated records, with operations of classes 1, 2 and 4.
pub(crate) const TABLE: &str =
    r#"{"operations":[{"class":1,"code":2},{"class":1,"code":3},{"class":1,"code":4},
{"class":1,"code":7},{"class":1,"code":8},{"class":1,"code":10},{"class":1,"code":11},{"class":1,"code":12},
{"class":1,"code":22},{"class":1,"code":23},{"class":1,"code":43},{"class":1,"code":44},{"class":1,"code":45},
{"class":1,"code":46},{"class":1,"code":56},{"class":1,"code":59},{"class":1,"code":60},{"class":1,"code":64},
{"class":1,"code":66},{"class":1,"code":71},{"class":2,"code":16},{"class":2,"code":17},{"class":2,"code":20},
{"class":2,"code":35},{"class":4,"code":31},{"class":4,"code":34},{"class":4,"code":49},{"class":4,"code":63}]}"#;

/// How far a dialogue has come.
#[derive(Clone, Copy, PartialEq, Eq)]
enum Phase {
    /// No dialogue is open.
    Over,
    /// Its Begin was sent.
    Begun,
    /// Its Begin was answered.
    Active,
}

/// What one end knows of a dialogue: its own transaction ID, its next invoke ID, and the invocations that it has to
/// answer.
#[derive(Drop)]
struct Half {
    own: Option<u32>,
    next_id: u8,
    asked: Vec<Asked>,
}

impl Half {
    fn new(alloc: Global) -> Half {
        Half {
            own: None,
            next_id: 1,
            asked: Vec::new(alloc),
        }
    }

    fn forget(&mut self) {
        self.own = None;
        self.next_id = 1;
        self.asked.clear();
    }
}

/// A dialogue in progress.
#[derive(Drop)]
struct Dialogue {
    phase: Phase,
    a: Half,
    b: Half,
    /// Whether each end knows that the dialogue is active.
    is_settled: bool,
    /// The end that sends the next message.
    turn: Side,
    /// The gap in which the last message is delivered.
    ready: usize,
    /// The number of messages that are still to be sent.
    left: u32,
    /// The greatest number of Invokes in a message.
    most: u32,
    /// The application context, if the dialogue has dialogue portions.
    context: Option<u8>,
}

impl Dialogue {
    fn new(alloc: Global) -> Dialogue {
        Dialogue {
            phase: Phase::Over,
            a: Half::new(alloc),
            b: Half::new(alloc),
            is_settled: false,
            turn: Side::A,
            ready: 0,
            left: 0,
            most: 1,
            context: None,
        }
    }

    fn half(&mut self, side: Side) -> &mut Half {
        match side {
            Side::A => &mut self.a,
            Side::B => &mut self.b,
        }
    }
}

/// Traffic in progress.
#[derive(Drop)]
pub(crate) struct Traffic {
    dice: Dice,
    made: Made,
    parts: Parts,
    dialogues: Vec<Dialogue>,
    /// The number of transaction IDs that were chosen, and the key that makes them look random.
    chosen: u32,
    key: u32,
    /// The first gaps in which messages of A and of B may be delivered.
    a_waits: usize,
    b_waits: usize,
    faults: Faults,
}

impl Traffic {
    /// Creates traffic with this many dialogues at once. Fails if memory runs out.
    fn new(
        alloc: Global,
        dialogues: u32,
        faults: Faults,
        seed: u32,
    ) -> Result<Traffic, AllocError> {
        let mut dice = Dice::new(seed);
        let key = dice.word();
        let parts = Parts::new(alloc, &mut dice)?;
        let mut slots = Vec::new(alloc);
        for _ in 0..dialogues {
            slots.push(Dialogue::new(alloc))?;
        }
        Ok(Traffic {
            dice,
            made: Made::new(alloc),
            parts,
            dialogues: slots,
            chosen: 0,
            key,
            a_waits: 0,
            b_waits: 0,
            faults,
        })
    }

    /// Returns a transaction ID that was not chosen before.
    fn new_id(&mut self) -> u32 {
        self.chosen = self.chosen.wrapping_add(1);
        self.chosen.wrapping_mul(0x9E37_79B1) ^ self.key
    }

    /// Returns the gap in which the next message of `side` is delivered.
    fn gap_of(&self, side: Side) -> usize {
        let next = self.made.len().saturating_add(1);
        match side {
            Side::A => next.max(self.a_waits),
            Side::B => next.max(self.b_waits),
        }
    }

    /// Delays, in one of 300 calls, the messages of one end by 5 to 40 entries.
    fn hold_back(&mut self) {
        if self.dice.one_in(300) {
            let wait = self.dice.between(5, 40) as usize;
            let until = self.made.len().saturating_add(wait);
            if self.dice.one_in(2) {
                self.a_waits = self.a_waits.max(until);
            } else {
                self.b_waits = self.b_waits.max(until);
            }
        }
    }

    /// Completes the message in `parts`, whose IDs and dialogue portion are there already, and appends it to the
    /// record.
    fn push(&mut self, side: Side, tag: u8, fate: Fate) -> Result<(), AllocError> {
        self.parts.end_message(tag)?;
        self.made.push(side, &self.parts.message, fate)
    }

    /// Returns the fate of the next message of `side`: one in `lost` messages is lost.
    fn fate_of(&mut self, side: Side, lost: u32) -> Fate {
        if self.dice.one_in(lost) {
            Fate::Lost
        } else {
            Fate::In(self.gap_of(side))
        }
    }

    /// Appends `count` Invokes of `side` to the message.
    fn push_invokes(
        &mut self,
        dialogue: &mut Dialogue,
        side: Side,
        count: u32,
    ) -> Result<(), AllocError> {
        for _ in 0..count {
            let half = dialogue.half(side);
            let id = half.next_id;
            half.next_id = id.wrapping_add(1) & 0x7F;
            let is_unknown = self.dice.one_in(self.faults.unknown());
            let asked = self.parts.push_invoke(&mut self.dice, id, is_unknown)?;
            if self.dice.one_in(self.faults.twice()) {
                self.parts.push_invoke(&mut self.dice, id, false)?;
            }
            if asked.class < 4 {
                dialogue.half(side.other()).asked.push(asked)?;
            }
        }
        Ok(())
    }

    /// Appends to the message the answers of `side` to all invocations that it has received.
    fn push_answers(&mut self, dialogue: &mut Dialogue, side: Side) -> Result<(), AllocError> {
        for asked in &dialogue.half(side).asked {
            let is_wrong = self.dice.one_in(self.faults.unknown());
            self.parts.push_answer(&mut self.dice, *asked, is_wrong)?;
            if self.dice.one_in(self.faults.twice()) {
                self.parts.push_answer(&mut self.dice, *asked, false)?;
            }
        }
        dialogue.half(side).asked.clear();
        Ok(())
    }

    /// Chooses the properties of a new dialogue.
    fn choose(&mut self, dialogue: &mut Dialogue) {
        dialogue.turn = if self.dice.one_in(2) {
            Side::A
        } else {
            Side::B
        };
        (dialogue.left, dialogue.most) = match self.dice.below(6) {
            0..=2 => (2, 1),
            3 | 4 => (self.dice.between(4, 8), 2),
            _ => (self.dice.between(2, 14), 3),
        };
        dialogue.context = if self.dice.one_in(7) {
            None
        } else {
            Some((self.dice.word() % 60) as u8)
        };
        dialogue.is_settled = false;
        dialogue.a.forget();
        dialogue.b.forget();
    }

    /// Begins a dialogue in place of a finished one.
    fn begin(&mut self, dialogue: &mut Dialogue) -> Result<(), AllocError> {
        self.choose(dialogue);
        let side = dialogue.turn;
        let own = self.new_id();
        dialogue.half(side).own = Some(own);
        self.parts.clear();
        push_id(&mut self.parts.content, 0x48, own)?;
        if let Some(context) = dialogue.context {
            push_request(&mut self.parts.content, context)?;
        }
        let count = self.dice.between(1, dialogue.most);
        self.push_invokes(dialogue, side, count)?;
        let next = self.made.len().saturating_add(1);
        if self.gap_of(side) == next && self.dice.one_in(100) {
            self.push(side, 0x62, Fate::By(next))?;
            return self.refuse(side.other(), own);
        }
        let fate = self.fate_of(side, 200);
        self.push(side, 0x62, fate)?;
        if let Fate::In(gap) = fate {
            dialogue.phase = Phase::Begun;
            dialogue.ready = gap;
            dialogue.left = dialogue.left.saturating_sub(1);
            dialogue.turn = side.other();
        }
        Ok(())
    }

    /// Sends the Abort with which the provider of `side` refuses a Begin, for lack of resources (P-Abort cause 4).
    fn refuse(&mut self, side: Side, own: u32) -> Result<(), AllocError> {
        self.parts.clear();
        push_id(&mut self.parts.content, 0x49, own)?;
        push_element(&mut self.parts.content, 0x4A, &[4])?;
        let fate = Fate::In(self.gap_of(side));
        self.push(side, 0x67, fate)
    }

    /// Appends the destination ID of a message of `side`.
    fn push_peer(&mut self, dialogue: &mut Dialogue, side: Side) -> Result<(), AllocError> {
        let is_wrong = self.dice.one_in(self.faults.unknown());
        let peer = match dialogue.half(side.other()).own {
            Some(peer) if !is_wrong => peer,
            _ => self.dice.word(),
        };
        push_id(&mut self.parts.content, 0x49, peer)
    }

    /// Appends both IDs of a Continue of `side`.
    fn push_ids(&mut self, dialogue: &mut Dialogue, side: Side) -> Result<(), AllocError> {
        let own = match dialogue.half(side).own {
            Some(own) => own,
            None => self.new_id(),
        };
        dialogue.half(side).own = Some(own);
        push_id(&mut self.parts.content, 0x48, own)?;
        self.push_peer(dialogue, side)
    }

    /// Sends a Continue, with answers and Invokes.
    fn go_on(&mut self, dialogue: &mut Dialogue) -> Result<(), AllocError> {
        let side = dialogue.turn;
        self.parts.clear();
        self.push_ids(dialogue, side)?;
        if dialogue.phase == Phase::Begun {
            if let Some(context) = dialogue.context {
                push_response(&mut self.parts.content, context)?;
            }
        } else {
            dialogue.is_settled = true;
        }
        self.push_answers(dialogue, side)?;
        let count = self.dice.below(dialogue.most.saturating_add(1));
        self.push_invokes(dialogue, side, count)?;
        dialogue.ready = self.gap_of(side);
        self.push(side, 0x65, Fate::In(dialogue.ready))?;
        dialogue.phase = Phase::Active;
        dialogue.left = dialogue.left.saturating_sub(1);
        if !dialogue.is_settled || !self.dice.one_in(5) {
            dialogue.turn = side.other();
        }
        Ok(())
    }

    /// Sends a Continue while the last message of the dialogue is still in transit.
    fn cross(&mut self, dialogue: &mut Dialogue) -> Result<(), AllocError> {
        let side = dialogue.turn;
        self.parts.clear();
        self.push_ids(dialogue, side)?;
        self.push_invokes(dialogue, side, 1)?;
        let fate = Fate::In(self.gap_of(side));
        self.push(side, 0x65, fate)
    }

    /// Sends the last message: an End, or in one of 20 dialogues an Abort.
    fn end(&mut self, dialogue: &mut Dialogue) -> Result<(), AllocError> {
        let side = dialogue.turn;
        let is_aborted = self.dice.one_in(20);
        self.parts.clear();
        self.push_peer(dialogue, side)?;
        match dialogue.context {
            Some(_) if is_aborted => self.parts.content.extend_from_slice(&ABORT)?,
            Some(context) if dialogue.phase == Phase::Begun => {
                push_response(&mut self.parts.content, context)?;
            }
            _ => {}
        }
        if !is_aborted {
            self.push_answers(dialogue, side)?;
        }
        let fate = self.fate_of(side, 100);
        self.push(side, if is_aborted { 0x67 } else { 0x64 }, fate)?;
        dialogue.phase = Phase::Over;
        Ok(())
    }

    /// Sends the next message of the dialogue. While the last one is in transit, sends a Continue that may cross
    /// another, or nothing. Returns whether a message was sent.
    fn step(&mut self, dialogue: &mut Dialogue) -> Result<bool, AllocError> {
        if dialogue.phase == Phase::Over {
            self.begin(dialogue)?;
        } else if dialogue.ready > self.made.len() {
            if !dialogue.is_settled {
                return Ok(false);
            }
            self.cross(dialogue)?;
        } else if dialogue.left <= 1 {
            self.end(dialogue)?;
        } else {
            self.go_on(dialogue)?;
        }
        Ok(true)
    }

    /// Sends a Unidirectional, which belongs to no dialogue (Q.771 2.4).
    fn report(&mut self) -> Result<(), AllocError> {
        let side = if self.dice.one_in(2) {
            Side::A
        } else {
            Side::B
        };
        self.parts.clear();
        self.parts.push_report(&mut self.dice)?;
        let fate = self.fate_of(side, 20);
        self.push(side, 0x61, fate)
    }

    /// Appends the next message of one of the dialogues, or now and then a Unidirectional.
    fn push_entry(&mut self) -> Result<(), AllocError> {
        self.hold_back();
        for _ in 0..8 {
            let count = self.dialogues.len();
            let place = self.dice.word() as usize;
            if count == 0 || self.dice.one_in(100) {
                break;
            }
            let mut dialogue = self.dialogues.swap_remove(place % count);
            let is_sent = self.step(&mut dialogue)?;
            self.dialogues.push(dialogue)?;
            if is_sent {
                return Ok(());
            }
        }
        self.report()
    }
}

/// Makes a record of `entries` entries, or one more, with this many dialogues at once and these faults.
pub(crate) fn make_traffic(
    alloc: Global,
    entries: usize,
    dialogues: u32,
    faults: Faults,
    seed: u32,
) -> Result<Made, AllocError> {
    let mut traffic = Traffic::new(alloc, dialogues, faults, seed)?;
    for _ in 0..entries {
        if traffic.made.len() < entries {
            traffic.push_entry()?;
        }
    }
    Ok(traffic.made)
}
