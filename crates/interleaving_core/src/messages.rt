// Messages.
ghost use Rattle.std.specs.Prelude.{◌≡◌};
ghost use Rattle.clv_base.specs.declared.events.Event.TheVariants.{Deliver};
ghost use Rattle.clv_base.specs.Runs.{same_message as same_message_in, same_vote as same_vote_in, same_why as same_why_in, sends as sends_in, was_sent as was_sent_in};

use clv_base::causes::{NoWhy, Vote};
use clv_base::events::{Entry, Outcome};
use clv_base::messages::Message;

fn same_why(why: NoWhy, other: NoWhy) -> bool
    ensures { result ≡ same_why_in why other }
{
    match (why, other) {
        (NoWhy::Doomed { tx }, NoWhy::Doomed { tx: second }) => tx == second,
        (
            NoWhy::Restarted { seen, now },
            NoWhy::Restarted {
                seen: second,
                now: then,
            },
        ) => seen == second && now == then,
        _ => false,
    }
}

fn same_vote(vote: Vote, other: Vote) -> bool
    ensures { result ≡ same_vote_in vote other }
{
    match (vote, other) {
        (Vote::Yes, Vote::Yes) | (Vote::Read, Vote::Read) => true,
        (Vote::No(why), Vote::No(second)) => same_why(why, second),
        _ => false,
    }
}

fn same_message(message: Message, other: Message) -> bool
    ensures { result ≡ same_message_in message other }
{
    match (message, other) {
        (
            Message::Prepare { to, tx, home, seen },
            Message::Prepare {
                to: to2,
                tx: tx2,
                home: home2,
                seen: seen2,
            },
        ) => to == to2 && tx == tx2 && home == home2 && seen == seen2,
        (
            Message::Vote { to, tx, from, vote },
            Message::Vote {
                to: to2,
                tx: tx2,
                from: from2,
                vote: vote2,
            },
        ) => to == to2 && tx == tx2 && from == from2 && same_vote(vote, vote2),
        (
            Message::Decide {
                to,
                tx,
                home,
                commit,
            },
            Message::Decide {
                to: to2,
                tx: tx2,
                home: home2,
                commit: commit2,
            },
        ) => to == to2 && tx == tx2 && home == home2 && commit == commit2,
        (
            Message::Done { to, tx, from },
            Message::Done {
                to: to2,
                tx: tx2,
                from: from2,
            },
        ) => to == to2 && tx == tx2 && from == from2,
        (
            Message::Ask { to, tx, from },
            Message::Ask {
                to: to2,
                tx: tx2,
                from: from2,
            },
        ) => to == to2 && tx == tx2 && from == from2,
        _ => false,
    }
}

fn sends(message: Message, stamp: u64, entry: &Entry) -> bool
    ensures { result ≡ sends_in message stamp entry.now }
{
    if entry.stamp != stamp {
        return false;
    }
    match &entry.outcome {
        Outcome::Sent(sent) => same_message(message, *sent),
        _ => false,
    }
}

/// Whether a message was sent with this stamp. It goes through the history.
pub fn was_sent(message: Message, stamp: u64, history: &[(u32, Entry)]) -> bool
    ensures { result ≡ was_sent_in history.now (Deliver message stamp) }
{
    history
        .iter()
        .any(|placed| sends(message, stamp, &placed.1))
}
