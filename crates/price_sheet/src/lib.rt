// What a price on the glass means: its symbols, its bytes, and back (paper 02, request 1).
#![tactic(auto)]

// What a 7-segment digit of the glass shows, as a price spells it (paper 02, request 1): a digit, without and with the point joined to it, a space, and a minus, ASCII or typographic.
#[derive(Clone, Copy)]
pub enum Symbol {
    Digit(u8),
    Pointed(u8),
    Space,
    Minus,
    LongMinus,
}
