// Pieces as they stand in a text.
ghost use Rattle.std.specs.Prelude.{◌≡◌, ◌++◌, map, OnOk};
ghost use Rattle.std.specs.List.{flat_map};
ghost use Rattle.bsdl_device.specs.Canonical as text_of;

use texts::{OutOfMemory, Text};

// Adds each of the pieces.
fn put_each(text: &mut Text, pieces: &[&[u8]]) -> Result<(), OutOfMemory>
    ensures { OnOk result (text.new ≡ text.old ++ flat_map (λ piece. piece.now) pieces.now) }
{
    for piece in pieces {
        text.append(piece)?;
    }
    Ok(())
}

/// Adds pieces, one behind the other.
pub fn put_all(text: &mut Text, pieces: &[&[u8]]) -> Result<(), OutOfMemory>
    ensures { OnOk result (text.new ≡ text.old ++ text_of.pieces (map (λ piece. piece.now) pieces.now)) }
{
    put_each(text, pieces)
}

/// Adds what begins an attribute of the entity, between these.
#[tactic(auto, unfolding(bsdl_device::specs::Canonical::attribute_text))]
pub fn put_attribute(
    text: &mut Text,
    before: &[u8],
    kind: &[u8],
    entity: &[u8],
    behind: &[u8],
) -> Result<(), OutOfMemory>
    ensures { OnOk result (text.new ≡ text.old
        ++ text_of.attribute_text before.now kind.now entity.now behind.now) }
{
    put_all(
        text,
        &[
            before,
            b"  attribute ",
            kind,
            b" of ",
            entity,
            b" : entity is",
            behind,
        ],
    )
}
