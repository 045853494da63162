//! Crashes and restarts, as bars over the whole height.
use crate::shapes::put_box;
use crate::sheet::{At, HEAD, Sheet};
use shell_texts::Text;
use shell_texts::node_world::Out;
use shell_texts::shell_story::{Doing, Story};
use std::io;

pub fn draw_bars<W: io::Write>(text: &mut Text<'_, W>, story: &Story<'_>, sheet: Sheet) {
    for (at, step) in story.steps.as_slice().iter().enumerate() {
        if sheet.is_drawn(at) {
            draw_bar(text, sheet, at, step.doing, &step.out);
        }
    }
}

fn draw_bar<W: io::Write>(
    text: &mut Text<'_, W>,
    sheet: Sheet,
    step: usize,
    doing: Doing,
    out: &Out,
) {
    let class = match (doing, out) {
        (Doing::CrashTc | Doing::CrashDc, Out::Down) => "crash",
        (Doing::RestartTc | Doing::RestartDc, Out::Up(_)) => "rise",
        _ => return,
    };
    let height = sheet.bottom.saturating_sub(HEAD);
    let middle = At {
        x: sheet.x(step),
        y: HEAD.saturating_add(height / 2),
    };
    put_box(
        text,
        class,
        middle,
        sheet.column().saturating_sub(2),
        height,
    );
}
