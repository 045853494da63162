//! The calls of a session and of an engine, as those of either engine.
use crate::engine::Engine;
use crate::session::Session;
use codec::Rows;
use engine_guarded::engine_answers::{Calls, Commands, Told};
use engine_guarded::engine_history::Naming;
use record_key::{Answer, Key, Op, Refusal, Value};
use stable::{CrashLog, CrashPages};
use std::sync::Wait;

impl<J: Naming, D: CrashLog + Drop, P: CrashPages + Drop> Calls for Session<J, D, P> {
    ghost session = { λ s. s };

    fn marks(&mut self) -> (u64, u64) {
        Session::marks(self)
    }

    fn begin<R: Wait>(&mut self, rt: &R) -> Result<u64, Refusal> {
        Session::begin(self, rt)
    }

    fn act<R: Wait>(&mut self, rt: &R, op: &Op) -> Result<Answer, Refusal> {
        Session::act(self, rt, op)
    }

    fn get<R: Wait>(&mut self, rt: &R, key: &Key) -> Result<Option<Value>, Refusal> {
        Session::get(self, rt, key)
    }

    fn scan<R: Wait>(&mut self, rt: &R, low: &Key, high: &Option<Key>) -> Result<Rows, Refusal> {
        Session::scan(self, rt, low, high)
    }

    fn save<R: Wait>(&mut self, rt: &R) -> Result<u64, Refusal> {
        Session::save(self, rt)
    }

    fn back_to<R: Wait>(&mut self, rt: &R, savepoint: u64) -> Result<(), Refusal> {
        Session::back_to(self, rt, savepoint)
    }

    fn rollback<R: Wait>(&mut self, rt: &R) -> Result<(), Refusal> {
        Session::rollback(self, rt)
    }

    fn commit<R: Wait>(&mut self, rt: &R) -> Result<u64, Refusal> {
        Session::commit(self, rt)
    }

    fn again<R: Wait>(&mut self, rt: &R) -> Result<Told, Refusal> {
        Session::again(self, rt)
    }
}

impl<J: Naming, D: CrashLog + Drop, P: CrashPages + Drop> Commands for Engine<J, D, P> {
    ghost given = { λ e. e };

    fn crash_dc<R: Wait>(&mut self, rt: &R) {
        Engine::crash_dc(self, rt);
    }

    fn crash_tc<R: Wait>(&mut self, rt: &R, kept: u64) {
        Engine::crash_tc(self, rt, kept);
    }

    fn fail_tc<R: Wait>(&mut self, rt: &R, call: u64) {
        Engine::fail_tc(self, rt, call);
    }

    fn restart<R: Wait>(&mut self, rt: &R) -> Result<(), Refusal> {
        Engine::restart(self, rt)
    }
}
