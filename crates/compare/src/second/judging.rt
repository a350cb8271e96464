// Whether a well-formed line is taken, and what it does.

use super::effect;
use super::effect::Effect;
use super::frame::Action;
use super::memory::Memory;
use super::past::Past;
use super::record::Deed;
use super::words::{Cause, Refusal, State};

// What a well-formed line does, or why it is refused. The refusals are tried in order of rank.
pub fn judge(past: &Past, memory: Memory, action: Action) -> Result<Effect, Refusal> {
    if action.is_refused_asleep() && !past.state().is_awake() {
        return Err(Refusal::Asleep);
    }
    Ok(match action {
        Action::Reset => effect::reset(past),
        Action::WriteState(State::Suspend | State::Off) if past.is_cause_pending() => {
            return Err(Refusal::CausePending);
        }
        Action::WriteState(state) => Effect::enter(past, state),
        Action::WriteRegister { register, value } => effect::write_register(past, register, value),
        Action::WriteFixedRegister => return Err(Refusal::FixedRegister),
        Action::ReadRegister(register) => effect::read_register(past, register),
        Action::WritePage { .. } => Effect::none(past),
        Action::ReadPage(page) => Effect::answer(past, past.page(page).0),
        Action::WriteByte { address, .. } => {
            Effect::write(past, memory.writable_byte(past, address)?)
        }
        Action::ReadByte(address) => Effect::answer(past, u16::from(memory.read(past, address)?)),
        Action::Tick => effect::tick(past),
        Action::Activity { source_bit } => effect::activity(past, source_bit),
        Action::Level {
            input,
            is_high: true,
        } => effect::go_high(past, input),
        Action::Level { is_high: false, .. } => Effect::none(past),
        Action::Alarm => effect::alarm(past),
    })
}

// What a refused line leaves behind: only a forbidden write leaves anything.
pub fn refuse(past: &Past, action: Action, refusal: Refusal) -> (Deed, Effect) {
    match (refusal, action) {
        (Refusal::ReadOnlyPage | Refusal::WriteProtected, Action::WriteByte { address, .. }) => (
            Deed::Violation(address),
            Effect::raise(past, Cause::Violation),
        ),
        _ => (Deed::Nothing, Effect::none(past)),
    }
}
