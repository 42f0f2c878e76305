// Gates of two operands, whose values stand in tables.

ghost use Rattle.std.specs.Prelude.{◌≡◌, ◌≤◌, ◌+◌, ◌*◌, ◌∷◌, [], Some, IfOk, slice_index_or};
ghost use Rattle.signal_values.specs.declared.Sig.TheVariants.{Unknown};
ghost use Rattle.cell_library.specs.declared.Kind.TheVariants.{Listed};
ghost use Rattle.cell_library.specs.Gates.{gate_output};
ghost use Rattle.event_parts.specs.Pairs.{AreTables, IsPair, code, kind_at, table_of};

use cell_library::{Kind, Library, is_flop};
use signal_values::{Sig, and, mux, not, or, xor};
use std::alloc::Global;
use std::marker::Model;
use texts::OutOfMemory;

/// How many kinds take several operands. The tables of listed cells follow theirs.
const OPEN: u32 = 6;

// Those kinds, in the order of their tables.
static OPEN_KINDS: [Kind; 6] = [
    Kind::And,
    Kind::Or,
    Kind::Nand,
    Kind::Nor,
    Kind::Xor,
    Kind::Xnor,
];

/// A gate that may have two operands, by the number of its table.
#[derive(Clone, Copy, PartialEq, Eq)]
pub struct Pair(pub u16);

/// What gates give of two operands: those of the kinds that take several, and all listed gates.
#[derive(Drop)]
pub struct PairTables {
    values: Vec<Sig>,
}

impl Model for PairTables {
    ghost use Rattle.std.specs.Prelude.{List};
    ghost use Rattle.signal_values.specs.declared.Sig.{Sig};

    ghost Value = { List Sig };

    ghost view = { λ t. t.values.items };
}

impl PairTables {
    /// The tables over a library, in time linear in the steps of its cells.
    pub fn new(alloc: Global, library: &Library) -> Result<PairTables, OutOfMemory>
        ensures { IfOk result (λ tables. AreTables library.now tables) }
    {
        let count = library.count();
        let mut values = Vec::new(alloc);
        for number in 0..OPEN + count {
            let table = table_of(library, kind_at(number));
            values.extend_from_slice(&table)?;
        }
        Ok(PairTables { values })
    }

    // What a gate gives of two operands: a look into its table, without a branch on them.
    pub(crate) fn value(&self, pair: Pair, a: Sig, b: Sig) -> Sig
        ensures { result ≡ slice_index_or self.now (9 * pair.0 + (3 * code a + code b)) Unknown }
    {
        let place = 9 * pair.0 as usize + (3 * code(a) + code(b));
        match self.values.get(place) {
            Some(value) => *value,
            None => Sig::Unknown,
        }
    }
}

// The place of a value in the order of tables.
fn code(value: Sig) -> usize
    ensures code { result ≡ code value }
    ensures small { result ≤ 2 }
{
    value as usize
}

// The kind whose table has this number.
fn kind_at(number: u32) -> Kind
    ensures { result ≡ kind_at number }
{
    match OPEN_KINDS.get(number as usize) {
        Some(kind) => *kind,
        None => Kind::Listed(number - OPEN),
    }
}

// What a gate gives of two operands.
fn output_of(library: &Library, kind: Kind, a: Sig, b: Sig) -> Sig
    ensures { result ≡ gate_output library.now kind (a ∷ b ∷ []) }
{
    match kind {
        Kind::And => and(a, b),
        Kind::Or => or(a, b),
        Kind::Nand => not(and(a, b)),
        Kind::Nor => not(or(a, b)),
        Kind::Xor => xor(a, b),
        Kind::Xnor => not(xor(a, b)),
        Kind::Buf | Kind::Assign => a,
        Kind::Not => not(a),
        Kind::Mux2 => mux(Sig::Unknown, a, b),
        Kind::Bufif0 | Kind::Bufif1 | Kind::Flop(_) => Sig::Unknown,
        Kind::Listed(number) => library.output_of(number, &[a, b]),
    }
}

// The values of a gate for two operands, each of 0, 1 and unknown in turn.
fn table_of(library: &Library, kind: Kind) -> [Sig; 9]
    ensures { result ≡ table_of library.now kind }
{
    [
        output_of(library, kind, Sig::Zero, Sig::Zero),
        output_of(library, kind, Sig::Zero, Sig::One),
        output_of(library, kind, Sig::Zero, Sig::Unknown),
        output_of(library, kind, Sig::One, Sig::Zero),
        output_of(library, kind, Sig::One, Sig::One),
        output_of(library, kind, Sig::One, Sig::Unknown),
        output_of(library, kind, Sig::Unknown, Sig::Zero),
        output_of(library, kind, Sig::Unknown, Sig::One),
        output_of(library, kind, Sig::Unknown, Sig::Unknown),
    ]
}

/// The number of a kind's table, where the kind takes several operands or is a listed gate.
pub fn pair_of(library: &Library, kind: Kind) -> Option<Pair>
    ensures { (pair : Pair) → result ≡ Some pair → IsPair library.now kind pair }
{
    match kind {
        Kind::And => Some(Pair(0)),
        Kind::Or => Some(Pair(1)),
        Kind::Nand => Some(Pair(2)),
        Kind::Nor => Some(Pair(3)),
        Kind::Xor => Some(Pair(4)),
        Kind::Xnor => Some(Pair(5)),
        Kind::Listed(number) => listed_pair(library, number),
        _ => None,
    }
}

// The number of a listed gate's table; None of a listed flip-flop, and past the last cell.
fn listed_pair(library: &Library, number: u32) -> Option<Pair>
    ensures { (pair : Pair) → result ≡ Some pair → IsPair library.now (Listed number) pair }
{
    if number >= library.count() {
        return None;
    }
    if is_flop(library, Kind::Listed(number)) {
        return None;
    }
    Some(Pair((OPEN + number) as u16))
}
