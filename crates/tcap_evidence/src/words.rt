//! The words for what a fault depends on.

ghost use Rattle.std.specs.Prelude.{◌≡◌};
ghost use Rattle.tcap_evidence.specs.EvidenceWords.{class_of_sort, class_words, doubt_words, origin_words, is_of_half, is_listed_if_empty, kind_words, lacks_words, place_words, sender_of, sort_in, sort_words};

use crate::shown_facts::ShownFact;
use tcap_faults::{Class, HalfOrigin, Sort};
use tcap_record::End;
use tcap_refute::Kind;

/// Returns the words for what a kind says of a message or a quiet mark.
#[tactic(auto, unfolding(crate::specs::EvidenceWords::kind_words))]
pub(crate) fn kind_words(kind: Kind) -> &'static str
    ensures { result.now ≡ kind_words kind }
{
    match kind {
        Kind::BadMessage => "its octets are no message",
        Kind::UnknownTransaction =>
            "its peer sent nothing from the destination ID that it could answer",
        Kind::ReusedId => "its end has used the originating ID",
        Kind::AfterEnd => "its end has ended this dialogue",
        Kind::AnswersNothing => "it answers or rejects what its peer never sent",
        Kind::WrongOperation => "it invokes or answers an operation as the table does not allow",
        Kind::MisplacedDialogue => "its dialogue portion is one that it may not carry",
        Kind::WrongHalf => "its end has no transaction over which it may send it",
        Kind::WrongDialogue => "its dialogue portion does not fit how the dialogue stands",
        Kind::InvokeIdBusy => "it invokes an ID that is in use",
        Kind::BadLink =>
            "it is linked to an invocation that its end did not receive, has answered, or may not link it to",
        Kind::AnsweredAlready => "it answers an invocation that was answered already",
        Kind::RejectNotAllowed => "it rejects with a problem that nothing received has",
        Kind::WrongReply => "it is an Abort of the provider that answers nothing which is left",
        Kind::OpenAtMark => "a transaction of its end is open at this quiet mark",
    }
}

/// Returns the words for how a half began.
#[tactic(auto, unfolding(crate::specs::EvidenceWords::origin_words))]
pub(crate) fn origin_words(origin: HalfOrigin) -> &'static str
    ensures { result.now ≡ origin_words origin }
{
    match origin {
        HalfOrigin::Accepted => "began by the peer's Begin",
        HalfOrigin::Refused => "the peer's Begin was refused",
        HalfOrigin::Begun => "began by its own Begin, which the peer answered",
        HalfOrigin::Unanswered => "began by its own Begin, which no Continue with an AARE answers",
        HalfOrigin::Nowhere => "none",
    }
}

/// Returns whether a kind compares the half over which a message would go.
pub(crate) fn is_of_half(kind: Kind) -> bool
    ensures { result ≡ is_of_half kind }
{
    matches!(
        kind,
        Kind::WrongHalf
            | Kind::WrongDialogue
            | Kind::InvokeIdBusy
            | Kind::BadLink
            | Kind::AnsweredAlready
            | Kind::RejectNotAllowed
    )
}

/// Returns the words for a class of operations, which follow those for a sort.
#[tactic(auto, unfolding(crate::specs::EvidenceWords::class_words))]
pub(crate) fn class_words(class: Class) -> &'static str
    ensures { result.now ≡ class_words class }
{
    match class {
        Class::Any => "",
        Class::One => " of class 1",
        Class::Two => " of class 2",
        Class::Three => " of class 3",
    }
}

/// Returns the words for a sort of components, without its class.
#[tactic(auto, unfolding(crate::specs::EvidenceWords::sort_words))]
pub(crate) fn sort_words(sort: Sort) -> &'static str
    ensures { result.now ≡ sort_words sort }
{
    match sort {
        Sort::Invokes(_) => "Invokes",
        Sort::Lasting(_) => "not expiring Invokes",
        Sort::Linked => "linked Invokes",
        Sort::Results => "Return Results",
        Sort::LastResults => "Return Results Last",
        Sort::NotLasts => "Return Results Not Last",
        Sort::Errors => "Return Errors",
        Sort::GeneralRejects => "Rejects with a general problem",
        Sort::InvokeRejects => "Rejects with an invoke problem",
        Sort::DuplicateRejects => "Rejects with duplicateInvokeID",
        Sort::LinkRejects => "Rejects with a problem of a link",
        Sort::ResultRejects => "Rejects with a return result problem",
        Sort::ErrorRejects => "Rejects with a return error problem",
    }
}

/// Returns the class of a sort.
pub(crate) fn class_of_sort(sort: Sort) -> Class
    ensures { result ≡ class_of_sort sort }
{
    match sort {
        Sort::Invokes(class) | Sort::Lasting(class) => class,
        _ => Class::Any,
    }
}

/// Returns the end that sent the entries which show this thing about a fault of `end`.
pub(crate) fn sender_of(end: End, fact: ShownFact) -> End
    ensures { result ≡ sender_of end fact }
{
    match fact {
        ShownFact::PeerBegins
        | ShownFact::PeerRequests
        | ShownFact::PeerContinues
        | ShownFact::PeerComponents(_)
        | ShownFact::IncomingComponents(_) => end.other(),
        _ => end,
    }
}

/// Returns the sort of components that is counted, if any.
pub(crate) fn sort_in(fact: ShownFact) -> Option<Sort>
    ensures { result ≡ sort_in fact }
{
    match fact {
        ShownFact::PeerComponents(sort)
        | ShownFact::IncomingComponents(sort)
        | ShownFact::Before(sort)
        | ShownFact::Whole(sort)
        | ShownFact::Invoked(sort) => Some(sort),
        _ => None,
    }
}

/// Returns the words for messages and their IDs, or for the place of components.
#[tactic(auto, unfolding(crate::specs::EvidenceWords::place_words))]
pub(crate) fn place_words(fact: ShownFact) -> &'static str
    ensures { result.now ≡ place_words fact }
{
    match fact {
        ShownFact::PeerBegins => "Begins from its destination ID",
        ShownFact::PeerRequests => "Begins with AARQ from its destination ID",
        ShownFact::PeerContinues => "Continues from its destination ID",
        ShownFact::Used => "messages from its originating ID before it",
        ShownFact::WentElsewhere => "Continues from its originating ID to another ID before it",
        ShownFact::Begun => "Begins from the own ID",
        ShownFact::OwnRequests => "Begins with AARQ from the own ID",
        ShownFact::OutgoingComponents => "messages to its destination ID before it",
        ShownFact::OutgoingContinues => "Continues to its destination ID before it",
        ShownFact::Ended => "Ends and user Aborts to its destination ID before it",
        ShownFact::Unknown => "Aborts with cause 1 to its destination ID before it",
        ShownFact::Refused => "Aborts with cause 4 to its destination ID before it",
        ShownFact::PeerComponents(_) => " from its destination ID",
        ShownFact::IncomingComponents(_) => " in this transaction",
        ShownFact::Before(_) => " before it",
        ShownFact::Whole(_) => " in its messages to its destination ID and in this one",
        ShownFact::Invoked(_) => " in this transaction",
        ShownFact::Open => "Continues of transactions that are open",
    }
}

/// Returns whether a line is printed even if there are no entries.
pub(crate) fn is_listed_if_empty(fact: ShownFact) -> bool
    ensures { result ≡ is_listed_if_empty fact }
{
    match fact {
        ShownFact::PeerBegins
        | ShownFact::PeerRequests
        | ShownFact::PeerContinues
        | ShownFact::Begun
        | ShownFact::OwnRequests => true,
        ShownFact::PeerComponents(sort) => {
            matches!(
                sort,
                Sort::Invokes(Class::Any) | Sort::Results | Sort::Errors
            )
        }
        ShownFact::IncomingComponents(sort) => matches!(
            sort,
            Sort::Invokes(Class::Any) | Sort::Linked | Sort::Results | Sort::Errors
        ),
        _ => false,
    }
}

/// Returns the line with another possible explanation, if the kind has one.
#[tactic(auto, unfolding(crate::specs::EvidenceWords::doubt_words))]
pub(crate) fn doubt_words(kind: Kind) -> &'static str
    ensures { result.now ≡ doubt_words kind }
{
    match kind {
        Kind::BadMessage => "  `tcapjudge show --why RECORD` says what is wrong with its octets\n",
        Kind::UnknownTransaction =>
            "  it may be, too, that a message of the peer is missing from the record\n",
        Kind::ReusedId =>
            "  it may be, too, that a quiet mark is missing, behind which IDs are free again, or a message\n",
        Kind::OpenAtMark =>
            "  it may be, too, that the mark was set too early, or that an End is missing from the record\n",
        _ => "",
    }
}

/// Returns the line on an operation that the table does not have, or no text.
#[tactic(auto, unfolding(crate::specs::EvidenceWords::lacks_words))]
pub(crate) fn lacks_words(lacks: bool) -> &'static str
    ensures { result.now ≡ lacks_words lacks }
{
    if lacks {
        "  the table lacks this operation\n"
    } else {
        ""
    }
}
