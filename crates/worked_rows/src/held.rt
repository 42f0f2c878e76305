use crate::row::NamedText;
use edge_io::MemShelf;
use std::alloc::Global;
use texts::{OutOfMemory, Text};

/// The texts that a run finds: those of its row, and what earlier runs wrote that is kept.
#[derive(Drop)]
pub(crate) struct Held<'a> {
    given: &'a [NamedText],
    kept: Vec<NamedText>,
}

impl<'a> Held<'a> {
    /// The texts of a row, with nothing kept.
    pub(crate) fn new(alloc: Global, given: &'a [NamedText]) -> Held<'a> {
        Held {
            given,
            kept: Vec::new(alloc),
        }
    }

    /// Keeps a text under a name, in place of the text that was held under it.
    pub(crate) fn keep(
        &mut self,
        alloc: Global,
        name: &str,
        bytes: &[u8],
    ) -> Result<(), OutOfMemory> {
        let name = String::from_str(alloc, name)?;
        let text = Text::from_bytes(alloc, bytes)?;
        self.kept.push(NamedText { name, text })?;
        Ok(())
    }

    /// The text that is held under a name, if any.
    pub(crate) fn text_of(&self, name: &str) -> Option<&[u8]> {
        match last_of(self.kept.as_slice(), name) {
            Some(text) => Some(text),
            None => last_of(self.given, name),
        }
    }

    /// Places the texts on a shelf.
    pub(crate) fn place_on(&self, shelf: &mut MemShelf) -> Result<(), OutOfMemory> {
        place_all(self.given, shelf)?;
        place_all(self.kept.as_slice(), shelf)
    }

    /// The first name whose text a shelf holds no more.
    pub(crate) fn first_lost(&self, shelf: &MemShelf) -> Option<&str> {
        match self.first_lost_of(self.given, shelf) {
            Some(name) => Some(name),
            None => self.first_lost_of(self.kept.as_slice(), shelf),
        }
    }

    fn first_lost_of<'b>(&self, files: &'b [NamedText], shelf: &MemShelf) -> Option<&'b str> {
        for file in files {
            let name = file.name.as_str();
            if shelf.held_of(name) != self.text_of(name) {
                return Some(name);
            }
        }
        None
    }
}

// The text that stands last under a name.
fn last_of<'a>(files: &'a [NamedText], name: &str) -> Option<&'a [u8]> {
    let mut found = None;
    for file in files {
        if file.name.as_str() == name {
            found = Some(file.text.as_bytes());
        }
    }
    found
}

// Places each text, a later one in place of an earlier one of its name.
fn place_all(files: &[NamedText], shelf: &mut MemShelf) -> Result<(), OutOfMemory> {
    for NamedText { name, text } in files {
        shelf.place(name.as_str(), text.as_bytes())?;
    }
    Ok(())
}
