ghost use Rattle.std.specs.Prelude.{◌≤◌};

/// Up to three names of files, in order.
#[derive(Clone, Copy)]
pub struct FileNames<'a> {
    pub names: [&'a str; 3],
    pub count: usize,
    ghost few: { count ≤ 3 },
}
