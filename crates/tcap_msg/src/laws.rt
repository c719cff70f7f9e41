//! Laws of the message grammar. Each function exists for its contract alone, which is the law.

ghost use Rattle.std.specs.Prelude.{◌≡◌, ℕ, List, [], ◌++◌, length, Ok, Some};
ghost use Rattle.std.specs.List.{All};
ghost use Rattle.tcap_ber.specs.declared.fault.Fault.{Fault};
ghost use Rattle.tcap_parts.specs.Valid.{IsId, IsOptionalId, IsCode, IsParameter, IsResultBody, IsProblem, IsComponent, IsPortion};
ghost use Rattle.tcap_parts.specs.DialogueValid.{IsInfo, IsSource, IsDialogue};
ghost use Rattle.tcap_msg.specs.declared.message.Message.{Message};
ghost use Rattle.tcap_msg.specs.Message.{Spells, IsFaulty};
ghost use Rattle.tcap_msg.specs.Canonical.{canonical};
ghost use Rattle.tcap_msg.specs.Reading.{message_at};
ghost use Rattle.tcap_msg.specs.Valid.{IsDialoguePortion, IsComponentPortion, IsAbortReason, IsMessage};

use crate::message::{AbortReason, Message};
use tcap_ber::Raw;
use tcap_parts::{Code, Component, Dialogue, Info, Portion, Problem, ResultBody, Source};

/// States that octets spell at most one message.
pub fn one_message()
    ensures { (octets : List ℕ) (m m' : Message) → Spells m octets → Spells m' octets → m ≡ m' }
{}

/// States that no spelling of a message is the beginning of another.
pub fn no_longer_spelling()
    ensures { (octets more : List ℕ) (m m' : Message) → Spells m octets → Spells m' (octets ++ more) → more ≡ [] }
{}

/// States that octets have at most one fault.
pub fn one_fault()
    ensures { (octets : List ℕ) (f f' : Fault) → IsFaulty octets f.reason f.place → IsFaulty octets f'.reason f'.place
        → f ≡ f' }
{}

/// States that the canonical spelling of a message spells it.
pub fn canonical_spelling()
    ensures { (m : Message) (octets : List ℕ) → IsMessage m → canonical m ≡ Some octets → Spells m octets }
{}

/// States that reading a canonical spelling, no matter what follows, returns the message and its length in octets.
pub fn read_again()
    ensures { (m : Message) (octets more : List ℕ) → IsMessage m → canonical m ≡ Some octets
        → message_at (octets ++ more) ≡ Ok (m, length octets) }
{}

fn is_id(id: &i8)
    ensures { IsId id.now }
{
    // Reading the number proves its range.
    let _id = *id;
}

fn is_optional_id(id: &Option<i8>)
    ensures { IsOptionalId id.now }
{
    if let Some(id) = id {
        is_id(id);
    }
}

fn is_code(code: &Code)
    ensures { IsCode code.now }
{
    match code {
        Code::Local(local) => {
            let _local = *local;
        }
        Code::Global(id) => {
            id.octets();
        }
    }
}

fn is_parameter(parameter: &Option<Raw>)
    ensures { IsParameter parameter.now }
{
    if let Some(raw) = parameter {
        raw.octets();
    }
}

fn is_result_body(body: &Option<ResultBody>)
    ensures { IsResultBody body.now }
{
    if let Some(body) = body {
        is_code(&body.code);
        is_parameter(&body.parameter);
    }
}

fn is_problem(problem: &Problem)
    ensures { IsProblem problem.now }
{
    match problem {
        Problem::General(number) => number.number(),
        Problem::Invoke(number) => number.number(),
        Problem::ReturnResult(number) => number.number(),
        Problem::ReturnError(number) => number.number(),
    };
}

fn is_component(component: &Component)
    ensures { IsComponent component.now }
{
    match component {
        Component::Invoke {
            id,
            linked,
            code,
            parameter,
        } => {
            is_id(id);
            is_optional_id(linked);
            is_code(code);
            is_parameter(parameter);
        }
        Component::ReturnResult { id, body, .. } => {
            is_id(id);
            is_result_body(body);
        }
        Component::ReturnError {
            id,
            code,
            parameter,
        } => {
            is_id(id);
            is_code(code);
            is_parameter(parameter);
        }
        Component::Reject { id, problem } => {
            is_optional_id(id);
            is_problem(problem);
        }
    }
}

fn are_components(components: &[Component])
    ensures { All IsComponent components.now }
{
    for component in components {
        is_component(component);
    }
}

fn is_portion(portion: &Portion)
    ensures { IsPortion portion.now }
{
    are_components(portion.items());
}

fn is_component_portion(components: &Option<Portion>)
    ensures { IsComponentPortion components.now }
{
    if let Some(portion) = components {
        is_portion(portion);
    }
}

fn is_info(info: &Option<Info>)
    ensures { IsInfo info.now }
{
    if let Some(info) = info {
        info.octets();
    }
}

fn is_source(source: &Source)
    ensures { IsSource source.now }
{
    match source {
        Source::User(number) => number.number(),
        Source::Provider(number) => number.number(),
    };
}

fn is_dialogue(dialogue: &Dialogue)
    ensures { IsDialogue dialogue.now }
{
    match dialogue {
        Dialogue::Request { context, info } => {
            context.octets();
            is_info(info);
        }
        Dialogue::Response {
            context,
            result,
            diagnostic,
            info,
        } => {
            context.octets();
            result.number();
            is_source(diagnostic);
            is_info(info);
        }
        Dialogue::Abort { source, info } => {
            source.number();
            is_info(info);
        }
        Dialogue::Uni { context, info } => {
            context.octets();
            is_info(info);
        }
    }
}

fn is_dialogue_portion(dialogue: &Option<Dialogue>)
    ensures { IsDialoguePortion dialogue.now }
{
    if let Some(dialogue) = dialogue {
        is_dialogue(dialogue);
    }
}

fn has_portions(dialogue: &Option<Dialogue>, components: &Option<Portion>)
    ensures { IsDialoguePortion dialogue.now × IsComponentPortion components.now }
{
    is_dialogue_portion(dialogue);
    is_component_portion(components);
}

fn is_reason(reason: &Option<AbortReason>)
    ensures { IsAbortReason reason.now }
{
    match reason {
        Some(AbortReason::Cause(cause)) => {
            cause.number();
        }
        Some(AbortReason::Dialogue(dialogue)) => is_dialogue(dialogue),
        None => {}
    }
}

/// States that each value of type [`Message`] is one that the laws apply to.
pub fn is_message(message: &Message)
    ensures { IsMessage message.now }
{
    match message {
        Message::Unidirectional {
            dialogue,
            components,
        } => {
            is_dialogue_portion(dialogue);
            is_portion(components);
        }
        Message::Begin {
            otid,
            dialogue,
            components,
        } => {
            otid.octets();
            has_portions(dialogue, components);
        }
        Message::Continue {
            otid,
            dtid,
            dialogue,
            components,
        } => {
            otid.octets();
            dtid.octets();
            has_portions(dialogue, components);
        }
        Message::End {
            dtid,
            dialogue,
            components,
        } => {
            dtid.octets();
            has_portions(dialogue, components);
        }
        Message::Abort { dtid, reason } => {
            dtid.octets();
            is_reason(reason);
        }
    }
}
