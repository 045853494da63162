//! What undo does next, and why it never begins again.
use crate::text::Text;
use history::Record;
use shell_story::{Actor, Logged, State, Story};

/// Where a chain stands: its last record, and what that leaves to undo.
#[derive(Clone, Copy)]
struct Chain {
    last: u64,
    next: u64,
    is_comp: bool,
}

/// A line of what is undone next for this transaction.
pub fn tell_undo(text: &mut Text<'_, Vec<u8>>, story: &Story<'_>, actor: &Actor<'_>) {
    let bound = match actor.state {
        State::Rolling { bound } => bound,
        _ => 0,
    };
    text.say("    undo of ").bytes(actor.label).say(": ");
    let chain = chain_of(story.log.as_slice(), actor.txn);
    if chain.next <= bound {
        tell_last(text, chain, bound);
    } else {
        tell_next(text, chain);
    }
}

/// The last step of a transaction in the log, and the operation that is undone next.
fn chain_of(log: &[Logged], txn: u64) -> Chain {
    let mut chain = Chain {
        last: 0,
        next: 0,
        is_comp: false,
    };
    for logged in log {
        if logged.lost.is_none() {
            chain = follow(chain, logged, txn);
        }
    }
    chain
}

fn follow(chain: Chain, logged: &Logged, txn: u64) -> Chain {
    match &logged.record {
        Record::Op { txn: whose, .. } if *whose == txn => Chain {
            last: logged.number,
            next: logged.number,
            is_comp: false,
        },
        Record::Comp {
            txn: whose,
            next,
            ..
        } if *whose == txn => Chain {
            last: logged.number,
            next: *next,
            is_comp: true,
        },
        _ => chain,
    }
}

fn tell_next(text: &mut Text<'_, Vec<u8>>, chain: Chain) {
    text.say("next is ").number(chain.next);
    if chain.is_comp {
        text.say(", by the undo-next of comp ")
            .number(chain.last)
            .say("; what is undone is skipped, so undo never begins again.\n");
    } else {
        text.say(", its newest operation, behind which nothing is undone yet.\n");
    }
}

fn tell_last(text: &mut Text<'_, Vec<u8>>, chain: Chain, bound: u64) {
    if chain.last == 0 {
        text.say("it logged no operation, so only its end is left.\n");
    } else if bound == 0 {
        text.say("nothing is left, by the undo-next 0 of comp ")
            .number(chain.last)
            .say(".\n");
    } else {
        text.say("nothing above ").number(bound).say(" is left.\n");
    }
}
