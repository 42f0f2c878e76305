// What is reached from places of a graph, by a list of what was found.
ghost use Rattle.std.specs.Prelude.{◌≡◌, ℕ, ◌<◌, length, IfOk, OnOk};
ghost use Rattle.hier_counts.specs.Graph.{IsIn, IsClosed, IsReached};

use std::alloc::Global;
use texts::{OutOfMemory, Row};

/// The marks on places, and the places that were found, in their order.
#[derive(Drop)]
struct Search {
    marks: Vec<bool>,
    found: Vec<usize>,
}

impl Search {
    ghost use Rattle.hier_counts.specs.Search.{seen_in, with_place, with_places};

    // Marks a place, which is found unless it was marked.
    fn see(&mut self, place: usize) -> Result<(), OutOfMemory>
        requires { place < length self.old.marks.items }
        ensures { OnOk result (seen_in self.new ≡ with_place place (seen_in self.old)) }
    {
        if !self.marks[place] {
            self.marks[place] = true;
            self.found.push(place)?;
        }
        Ok(())
    }

    fn see_all(&mut self, places: &[usize]) -> Result<(), OutOfMemory>
        requires { (w : ℕ) → IsIn w places.now → w < length self.old.marks.items }
        ensures { OnOk result (seen_in self.new ≡ with_places places.now (seen_in self.old)) }
    {
        for place in places {
            self.see(*place)?;
        }
        Ok(())
    }
}

/// Marks on the places that these lead to, in any number of steps. It looks once at each.
pub fn reached_from(
    alloc: Global,
    graph: &[Row<usize>],
    roots: &[usize],
) -> Result<Vec<bool>, OutOfMemory>
    requires closed { IsClosed graph.now }
    requires roots { (w : ℕ) → IsIn w roots.now → w < length graph.now }
    ensures { IfOk result (λ marks. IsReached graph.now roots.now marks.items) }
{
    let mut search = Search {
        marks: vec![in alloc; false; graph.len()]?,
        found: Vec::new(alloc),
    };
    search.see_all(roots)?;
    let mut next: usize = 0;
    while next < search.found.len() {
        let place = search.found[next];
        next += 1;
        search.see_all(graph[place].as_slice())?;
    }
    let Search { marks, .. } = search;
    Ok(marks)
}
