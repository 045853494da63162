//! Requests that words spell, and the text of replies.
use codec::{Reply, Request};
use record_key::Refusal;
use test_calls::{Text, UNREADABLE, Words};

/// The request of this name.
pub fn request_of(name: &str, words: &mut Words) -> Result<Request, Refusal> {
    let session = words.number()?;
    match name {
        "connect" => Ok(Request::Connect {
            session,
            end: words.number()?,
        }),
        "redoend" => Ok(Request::RedoEnd { session }),
        "perform" => Ok(Request::Perform {
            session,
            number: words.number()?,
            stable: words.number()?,
            op: words.op()?,
        }),
        "stable" => Ok(Request::StableEnd {
            session,
            stable: words.number()?,
        }),
        "get" => Ok(Request::Get {
            session,
            read: words.number()?,
            key: words.key()?,
        }),
        "scan" => Ok(Request::Scan {
            session,
            read: words.number()?,
            low: words.key()?,
            high: words.end()?,
        }),
        "low" => Ok(Request::LowWater {
            session,
            low: words.number()?,
        }),
        "checkpoint" => Ok(Request::Checkpoint {
            session,
            low: words.number()?,
        }),
        _ => Err(UNREADABLE),
    }
}

pub fn put_reply(text: &mut Text, reply: &Reply) {
    match reply {
        Reply::Connected { session } => put_numbered(text, "connected", *session),
        Reply::RedoEnded { session } => put_numbered(text, "redoended", *session),
        Reply::Checkpointed { low, .. } => put_numbered(text, "checkpointed", *low),
        Reply::Answered { answer, .. } => match answer {
            Some(answer) => text.put_answer(answer),
            None => text.put("done"),
        },
        Reply::Row { value, .. } => {
            text.put("row");
            text.put_found(value.as_ref());
        }
        Reply::Rows { rows, .. } => {
            text.put("rows");
            let mut reader = rows.lent();
            for _ in 0..rows.len() {
                if let Some((key, value)) = reader.next() {
                    text.put_row(&key, &value);
                }
            }
        }
    }
}

fn put_numbered(text: &mut Text, word: &str, number: u64) {
    text.put(word);
    text.put_number(number);
}
