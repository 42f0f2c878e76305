use cell_library::{Edge, FlopKind, Kind, ResetTo};
use gate_parts::{Gate, Pin, Pins};

/// The multiplexer that drives the net that a cell gives its value to: `other` where `select` is 1, else `usual`.
#[derive(Clone, Copy)]
pub struct Choice {
    pub usual: Pin,
    pub other: Pin,
    pub select: Pin,
}

const RISES: FlopKind = FlopKind {
    edge: Edge::Rise,
    reset: ResetTo::Zero,
};

const FALLS: FlopKind = FlopKind {
    edge: Edge::Fall,
    reset: ResetTo::Zero,
};

// Place 0: the shift bit.
const SHIFT_FLOP: Gate = Gate {
    kind: Kind::Flop(RISES),
    pins: Pins::Three(Pin::Own(1), Pin::Given(0), Pin::Given(1)),
};

// Place 1: what the cell is handed, where the register captures.
const TAKES_GIVEN: Gate = Gate {
    kind: Kind::Mux2,
    pins: Pins::Three(Pin::Own(2), Pin::Given(6), Pin::Given(2)),
};

// Place 1: what place 5 gives, where the register captures.
const TAKES_OWN: Gate = Gate {
    kind: Kind::Mux2,
    pins: Pins::Three(Pin::Own(2), Pin::Own(5), Pin::Given(2)),
};

// Place 2: the next bit towards TDI, where the register shifts.
const SHIFTS: Gate = Gate {
    kind: Kind::Mux2,
    pins: Pins::Three(Pin::Own(0), Pin::Given(5), Pin::Given(3)),
};

// Place 3: the update bit.
const UPDATE_FLOP: Gate = Gate {
    kind: Kind::Flop(FALLS),
    pins: Pins::Three(Pin::Own(4), Pin::Given(0), Pin::Given(1)),
};

// Place 4: the shift bit, where the register updates.
const TAKES_SHIFT: Gate = Gate {
    kind: Kind::Mux2,
    pins: Pins::Three(Pin::Own(3), Pin::Own(0), Pin::Given(4)),
};

// What the cell is handed, or the update bit under EXTEST.
const UPDATE_UNDER_EXTEST: Gate = Gate {
    kind: Kind::Mux2,
    pins: Pins::Three(Pin::Given(6), Pin::Own(3), Pin::Given(7)),
};

// What the cell is handed, or the update bit where its mode is 1.
const UPDATE_BY_MODE: Gate = Gate {
    kind: Kind::Mux2,
    pins: Pins::Three(Pin::Given(6), Pin::Own(3), Pin::Given(8)),
};

// What place 6 gives, or the pin under EXTEST.
const PIN_UNDER_EXTEST: Gate = Gate {
    kind: Kind::Mux2,
    pins: Pins::Three(Pin::Own(6), Pin::Given(9), Pin::Given(7)),
};

// The pin, or the core where a control of 1 enables it.
const CORE_WHERE_HIGH: Gate = Gate {
    kind: Kind::Mux2,
    pins: Pins::Three(Pin::Given(9), Pin::Given(6), Pin::Given(10)),
};

// The pin, or the core where a control of 0 enables it.
const CORE_WHERE_LOW: Gate = Gate {
    kind: Kind::Mux2,
    pins: Pins::Three(Pin::Given(6), Pin::Given(9), Pin::Given(10)),
};

/// The two bits of a cell that captures what it is handed. Handed in are TCK, TRST, capture, shift, update, the next
/// bit towards TDI, the core's value or the pin's, EXTEST, and the cell's mode.
pub const BC_1: [Gate; 5] = [SHIFT_FLOP, TAKES_GIVEN, SHIFTS, UPDATE_FLOP, TAKES_SHIFT];

/// Those of a cell that captures its update bit under EXTEST. Handed in is what `BC_1` is handed.
pub const BC_2: [Gate; 6] = [
    SHIFT_FLOP,
    TAKES_OWN,
    SHIFTS,
    UPDATE_FLOP,
    TAKES_SHIFT,
    UPDATE_UNDER_EXTEST,
];

/// Those of a control cell, with its level while outputs are active. Handed in are besides the inactive level, and
/// whether outputs are inactive.
pub const BC_1_CONTROL: [Gate; 6] = [
    SHIFT_FLOP,
    TAKES_GIVEN,
    SHIFTS,
    UPDATE_FLOP,
    TAKES_SHIFT,
    UPDATE_BY_MODE,
];

/// The same of a BC_2.
pub const BC_2_CONTROL: [Gate; 7] = [
    SHIFT_FLOP,
    TAKES_OWN,
    SHIFTS,
    UPDATE_FLOP,
    TAKES_SHIFT,
    UPDATE_UNDER_EXTEST,
    UPDATE_BY_MODE,
];

/// Those of an inout whose driver a control of 1 enables. Handed in are besides the pin, and the core's control.
pub const BC_7_HIGH: [Gate; 7] = [
    SHIFT_FLOP,
    TAKES_OWN,
    SHIFTS,
    UPDATE_FLOP,
    TAKES_SHIFT,
    PIN_UNDER_EXTEST,
    CORE_WHERE_HIGH,
];

/// Those of an inout whose driver a control of 0 enables.
pub const BC_7_LOW: [Gate; 7] = [
    SHIFT_FLOP,
    TAKES_OWN,
    SHIFTS,
    UPDATE_FLOP,
    TAKES_SHIFT,
    PIN_UNDER_EXTEST,
    CORE_WHERE_LOW,
];

/// What an input, output or inout cell gives: what it is handed, and its update bit where its mode is 1.
pub const UPDATES: Choice = Choice {
    usual: Pin::Given(6),
    other: Pin::Own(3),
    select: Pin::Given(8),
};

/// What a BC_1 control cell gives: its level, and the inactive level where outputs are inactive.
pub const BC_1_LEVEL: Choice = Choice {
    usual: Pin::Own(5),
    other: Pin::Given(9),
    select: Pin::Given(10),
};

/// The same of a BC_2.
pub const BC_2_LEVEL: Choice = Choice {
    usual: Pin::Own(6),
    other: Pin::Given(9),
    select: Pin::Given(10),
};
