//! The players' work, timed.
ghost use Rattle.std.specs.Prelude.{⊤};

use crate::crew::{CLIENTS, Crew};
use crate::draws::Values;
use crate::outcome::done;
use crate::player::Player;
use engine_workers::Calls;
use record_key::Refusal;
use std::alloc::Global;
use std::sync::Wait;
use std::thread::Threads;
use std::time::{Clock, Duration, Instant};
use std::{io, thread};

/// How long the work takes, without the load before it. No session is left then.
pub fn timed<S, R>(rt: &R, alloc: Global, sessions: Vec<S>, crew: Crew) -> io::Result<Duration>
where
    S: Calls + Drop + Send,
    R: Clock + Print + Threads + Wait + Sync,
{
    let mut players = done(players_of(alloc, sessions))?;
    let values = done(Values::new(alloc))?;
    timed_lent(rt, players.as_mut_slice(), &values, crew)
}

fn players_of<S: Calls + Drop>(alloc: Global, sessions: Vec<S>) -> Result<Vec<Player<S>>, Refusal> {
    let mut players = Vec::with_capacity(alloc, sessions.len())?;
    for session in sessions {
        players.push(Player::new(session))?;
    }
    Ok(players)
}

fn timed_lent<S, R>(
    rt: &R,
    players: &mut [Player<S>],
    values: &Values,
    crew: Crew,
) -> io::Result<Duration>
where
    S: Calls + Drop + Send,
    R: Clock + Print + Threads + Wait + Sync,
{
    if crew.is_loaded() {
        done(load(rt, players, values))?;
    }
    let start = Instant::now(rt)?;
    go(rt, players, values, crew);
    let end = Instant::now(rt)?;
    done(all_done(players))?;
    Ok(end.duration_since(start))
}

fn load<S: Calls + Drop, R: Wait>(
    rt: &R,
    players: &mut [Player<S>],
    values: &Values,
) -> Result<(), Refusal> {
    match players.first_mut() {
        Some(player) => player.load(rt, values),
        None => Ok(()),
    }
}

fn go<S, R>(rt: &R, players: &mut [Player<S>], values: &Values, crew: Crew)
where
    S: Calls + Drop + Send,
    R: Clock + Print + Threads + Wait + Sync,
{
    if crew.is_alone() {
        go_alone(rt, players, values, crew);
        return;
    }
    let play = |place: usize, player: &mut Player<S>|
        ensures { ⊤ }
    {
        let client = u8::try_from(place).unwrap_or(0);
        match (crew.lasts(), crew.counts()) {
            (Some(lasts), _) => player.take_turns(rt, client, lasts),
            (None, Some(last)) => player.tell(rt, client, last),
            (None, None) => player.play(rt, values, crew.share(client)),
        }
    };
    thread::for_each_mut(rt, players, crew.sessions(), &play);
}

/// The first client has the share of each.
fn go_alone<S: Calls + Drop, R: Wait>(
    rt: &R,
    players: &mut [Player<S>],
    values: &Values,
    crew: Crew,
) {
    if let Some(player) = players.first_mut() {
        for client in 0..CLIENTS {
            player.play(rt, values, crew.share(client));
        }
    }
}

fn all_done<S: Calls + Drop>(players: &[Player<S>]) -> Result<(), Refusal> {
    for player in players {
        player.done()?;
    }
    Ok(())
}
