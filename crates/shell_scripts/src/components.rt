//! The lines of a component: it crashes, or is restarted.
ghost use Rattle.std.specs.Prelude.{◌≡◌, option_map};
ghost use Rattle.shell_scripts.specs.Words.{number_in};
ghost use Rattle.shell_scripts.specs.Script.{component_in, crash_in, crash_of, restart_of, with_component, meaning};

use crate::line::{Component, Line};
use crate::words::number_of;
use node_world::Event;

/// The component that a word names.
fn component_in(word: &[u8]) -> Option<Component>
    ensures { result ≡ component_in word.now }
{
    if word == b"tc".as_slice() {
        Some(Component::Tc)
    } else if word == b"dc".as_slice() {
        Some(Component::Dc)
    } else {
        None
    }
}

/// A line of a name and a component.
pub fn with_component<'a>(name: &[u8], word: &[u8]) -> Option<Line<'a>>
    ensures { option_map meaning result ≡ with_component name.now (component_in word.now) }
{
    let component = component_in(word)?;
    if name == b"restart".as_slice() {
        Some(Line::Step(restart_of(component)))
    } else {
        None
    }
}

/// A crash whose component and numbers are these words.
pub fn crash<'a>(word: &[u8], frames: &[u8], bytes: &[u8]) -> Option<Line<'a>>
    ensures { option_map meaning result
        ≡ crash_in (component_in word.now) (number_in frames.now) (number_in bytes.now) }
{
    let component = component_in(word)?;
    let frames = number_of(frames)?;
    let bytes = number_of(bytes)?;
    Some(Line::Step(crash_of(component, frames, bytes)))
}

/// Of the component's log the records that aren't stable keep so many frames, and so many bytes of the next one.
fn crash_of(component: Component, frames: u64, bytes: u64) -> Event
    ensures { result ≡ crash_of component frames bytes }
{
    match component {
        Component::Tc => Event::CrashTc { frames, bytes },
        Component::Dc => Event::CrashDc { frames, bytes },
    }
}

fn restart_of(component: Component) -> Event
    ensures { result ≡ restart_of component }
{
    match component {
        Component::Tc => Event::RestartTc,
        Component::Dc => Event::RestartDc,
    }
}
