// Numbers by which most places of a graph are seen to stand in no ring. Nothing is claimed of the numbers themselves:
// that they never rise is looked at, and a place that isn't cleared by them is searched.
ghost use Rattle.std.specs.Prelude.{◌≡◌, ◌≢◌, ◌≤◌, ℕ, true, IfOk};
ghost use Rattle.hier_counts.specs.Graph.{IsIn};
ghost use Rattle.hier_counts.specs.Rings.{number, NeverRises};

use std::alloc::Global;
use texts::{OutOfMemory, Row};

// The number at a place; 0 where there is none.
fn number_at(numbers: &[u32], place: usize) -> u32
    ensures { result ≡ number numbers.now place }
{
    match numbers.get(place) {
        Some(number) => *number,
        None => 0,
    }
}

fn put(numbers: &mut [u32], place: usize, number: u32) {
    if place < numbers.len() {
        numbers[place] = number;
    }
}

// A place on the path of a search in depth, and the next step from it.
#[derive(Clone, Copy)]
struct Standing {
    place: usize,
    next: usize,
}

// A search in depth for groups of places that lead to one another. 0 stands for a place that is unseen, or
// in no group yet.
#[derive(Drop)]
struct GroupSearch {
    entered: Vec<u32>,
    lowest: Vec<u32>,
    groups: Vec<u32>,
    path: Vec<Standing>,
    waiting: Vec<usize>,
    last_entered: u32,
    last_group: u32,
}

impl GroupSearch {
    fn new(alloc: Global, count: usize) -> Result<GroupSearch, OutOfMemory> {
        Ok(GroupSearch {
            entered: vec![in alloc; 0; count]?,
            lowest: vec![in alloc; 0; count]?,
            groups: vec![in alloc; 0; count]?,
            path: Vec::new(alloc),
            waiting: Vec::new(alloc),
            last_entered: 0,
            last_group: 0,
        })
    }

    fn enter(&mut self, place: usize) -> Result<(), OutOfMemory> {
        self.last_entered = self.last_entered.saturating_add(1);
        put(self.entered.as_mut_slice(), place, self.last_entered);
        put(self.lowest.as_mut_slice(), place, self.last_entered);
        self.waiting.push(place)?;
        self.path.push(Standing { place, next: 0 })?;
        Ok(())
    }

    // Notes that a place leads to one that was entered so early.
    fn lower(&mut self, place: usize, entered: u32) {
        if entered < number_at(&self.lowest, place) {
            put(self.lowest.as_mut_slice(), place, entered);
        }
    }

    // Gives the places that wait, back to this one, the next group.
    fn close_group(&mut self, place: usize) {
        self.last_group = self.last_group.saturating_add(1);
        for _ in 0..self.waiting.len() {
            let Some(other) = self.waiting.pop() else {
                return;
            };
            put(self.groups.as_mut_slice(), other, self.last_group);
            if other == place {
                return;
            }
        }
    }

    // A place is gone through.
    fn leave(&mut self, place: usize) {
        self.path.pop();
        let lowest = number_at(&self.lowest, place);
        if let Some(before) = self.path.last() {
            let before = before.place;
            self.lower(before, lowest);
        }
        if lowest == number_at(&self.entered, place) {
            self.close_group(place);
        }
    }

    // Looks at a place that the path's last one leads to.
    fn look(&mut self, from: usize, to: usize) -> Result<(), OutOfMemory> {
        let entered = number_at(&self.entered, to);
        if entered == 0 {
            return self.enter(to);
        }
        if number_at(&self.groups, to) == 0 {
            self.lower(from, entered);
        }
        Ok(())
    }

    // Goes one step on from the path's last place.
    fn step(&mut self, graph: &[Row<usize>], last: Standing) -> Result<(), OutOfMemory> {
        let places = match graph.get(last.place) {
            Some(row) => row.as_slice(),
            None => &[],
        };
        match places.get(last.next) {
            None => {
                self.leave(last.place);
                Ok(())
            }
            Some(to) => {
                self.path.pop();
                self.path.push(Standing {
                    place: last.place,
                    next: last.next.saturating_add(1),
                })?;
                self.look(last.place, *to)
            }
        }
    }

    // Goes on from a place until the path is empty; more steps than these are never needed.
    fn go_from(
        &mut self,
        graph: &[Row<usize>],
        place: usize,
        steps: usize,
    ) -> Result<(), OutOfMemory> {
        self.enter(place)?;
        for _ in 0..steps {
            let Some(last) = self.path.last() else {
                return Ok(());
            };
            let last = *last;
            self.step(graph, last)?;
        }
        Ok(())
    }
}

// Twice as many steps as there are places and edges.
fn step_bound(graph: &[Row<usize>]) -> usize {
    let mut bound = graph.len();
    for row in graph {
        bound = bound.saturating_add(row.len());
    }
    bound.saturating_mul(2)
}

// A number for each place: those of a ring have one number, and none leads to a greater one.
fn group_numbers(alloc: Global, graph: &[Row<usize>]) -> Result<Vec<u32>, OutOfMemory> {
    let mut search = GroupSearch::new(alloc, graph.len())?;
    let steps = step_bound(graph);
    for place in 0..graph.len() {
        if number_at(&search.entered, place) == 0 {
            search.go_from(graph, place, steps)?;
        }
    }
    let GroupSearch { groups, .. } = search;
    Ok(groups)
}

// Whether each of these places has a number that isn't greater.
fn are_low(numbers: &[u32], places: &[usize], bound: u32) -> bool
    ensures { result ≡ true → (w : ℕ) → IsIn w places.now → number numbers.now w ≤ bound }
{
    for place in places {
        if number_at(numbers, *place) > bound {
            return false;
        }
    }
    true
}

// Whether no step leads to a greater number.
fn never_rises(graph: &[Row<usize>], numbers: &[u32]) -> bool
    ensures { result ≡ true → NeverRises graph.now numbers.now }
{
    for place in 0..graph.len() {
        if !are_low(numbers, graph[place].as_slice(), number_at(numbers, place)) {
            return false;
        }
    }
    true
}

/// Numbers of the places of a graph, and whether no step leads to a greater one.
#[derive(Drop)]
pub struct Rings {
    pub numbers: Vec<u32>,
    pub falls: bool,
}

impl Rings {
    /// Numbers for a graph.
    pub fn of(alloc: Global, graph: &[Row<usize>]) -> Result<Rings, OutOfMemory>
        ensures { IfOk result (λ rings. rings.falls ≡ true → NeverRises graph.now rings.numbers.items) }
    {
        let numbers = group_numbers(alloc, graph)?;
        let falls = never_rises(graph, &numbers);
        Ok(Rings { numbers, falls })
    }

    /// Whether the numbers tell that no ring holds this place, which leads to these.
    pub fn clears(&self, place: usize, steps: &[usize]) -> bool
        ensures falls { result ≡ true → self.now.falls ≡ true }
        ensures apart { result ≡ true → (w : ℕ) → IsIn w steps.now → number self.now.numbers.items w ≢ number self.now.numbers.items place }
    {
        if !self.falls {
            return false;
        }
        let own = number_at(&self.numbers, place);
        for step in steps {
            if number_at(&self.numbers, *step) == own {
                return false;
            }
        }
        true
    }
}
