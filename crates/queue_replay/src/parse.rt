//! A line of a schedule.

use queue_core::Step;

/// The three numbers in a text, divided by commas, of which the last may be negative; 0 where there are fewer.
fn numbers(text: &str) -> (u64, u64, i64) {
    let (first, rest) = text.split_once(',').unwrap_or((text, ""));
    let (line, amount) = rest.split_once(',').unwrap_or((rest, ""));
    (
        first.parse().unwrap_or(0),
        line.parse().unwrap_or(0),
        amount.parse().unwrap_or(0),
    )
}

/// The two numbers of a text, divided by a blank; 0 where there is none.
pub fn two(text: &str) -> (u64, u64) {
    let (first, second) = text.split_once(' ').unwrap_or((text, ""));
    (first.parse().unwrap_or(0), second.parse().unwrap_or(0))
}

/// The mailbox of a text like `in 1 moved`, and the rest of it; mailbox 0 where it has none.
pub fn mailbox(text: &str) -> Option<(u64, &str)> {
    match text.strip_prefix("in ") {
        Some(rest) => {
            let (mailbox, answer) = rest.split_once(' ')?;
            Some((mailbox.parse().ok()?, answer))
        }
        None => Some((0, text)),
    }
}

/// The step of a text like `LoadTurn(0,5,-10)` or `LoadNext`.
pub fn step(text: &str) -> Option<Step> {
    let (name, rest) = text.split_once('(').unwrap_or((text, ""));
    let (first, line, amount) = numbers(rest.strip_suffix(')').unwrap_or(rest));
    match name {
        "LoadTurn" => Some(Step::LoadTurn(first, line, amount)),
        "StoreLine" => Some(Step::StoreLine(first)),
        "EndLine" => Some(Step::EndLine(first)),
        "StoreAmount" => Some(Step::StoreAmount(first)),
        "StoreNull" => Some(Step::StoreNull(first)),
        "SwapHead" => Some(Step::SwapHead(first)),
        "StoreLink" => Some(Step::StoreLink(first)),
        _ => reader_step(name, first),
    }
}

fn reader_step(name: &str, node: u64) -> Option<Step> {
    match name {
        "LoadNext" => Some(Step::LoadNext),
        "LoadHead" => Some(Step::LoadHead),
        "StubNull" => Some(Step::StubNull),
        "StubSwap" => Some(Step::StubSwap),
        "StubLink" => Some(Step::StubLink),
        "LoadLine" => Some(Step::LoadLine(node)),
        "LoadAmount" => Some(Step::LoadAmount(node)),
        "GiveBack" => Some(Step::GiveBack(node)),
        _ => None,
    }
}

/// The sender whose step it is.
pub fn sender(step: Step) -> Option<u64> {
    match step {
        Step::LoadTurn(p, ..)
        | Step::StoreLine(p)
        | Step::EndLine(p)
        | Step::StoreAmount(p)
        | Step::StoreNull(p)
        | Step::SwapHead(p)
        | Step::StoreLink(p) => Some(p),
        _ => None,
    }
}
