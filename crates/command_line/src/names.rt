ghost use Rattle.std.specs.Prelude.{◌≡◌, ◌++◌, None, true, false, IfSome};
ghost use Rattle.command_edges.specs.Libraries.{name_of, names_if};
ghost use Rattle.command_edges.specs.Names.{IsOneOf, names_of};
ghost use Rattle.command_line.specs.Names.{AreApart, IsNoneOf, IsRepeated};

// Whether the name is one of these.
fn is_one_of(name: &str, names: &[&str]) -> bool
    ensures one { result ≡ true → IsOneOf name.now (names_of names.now) }
    ensures none { result ≡ false → IsNoneOf name.now (names_of names.now) }
{
    let [other, rest @ ..] = names else {
        return false;
    };
    name == *other || is_one_of(name, rest)
}

// Whether the name is that of the library.
fn is_library(name: &str, library: Option<&str>) -> bool
    ensures one { result ≡ true → IsOneOf name.now (names_if (name_of library.entry)) }
    ensures none { result ≡ false → IsNoneOf name.now (names_if (name_of library.entry)) }
{
    match library {
        Some(other) => name == other,
        None => false,
    }
}

// Whether the name is that of a file that is read, or of one of these that are written.
fn is_among(name: &str, reads: &[&str], library: Option<&str>, writes: &[&str]) -> bool
    ensures one { result ≡ true → IsOneOf name.now
        ((names_of reads.now ++ names_if (name_of library.entry)) ++ names_of writes.now) }
    ensures none { result ≡ false → IsNoneOf name.now
        ((names_of reads.now ++ names_if (name_of library.entry)) ++ names_of writes.now) }
{
    if is_one_of(name, reads) {
        return true;
    }
    if is_library(name, library) {
        return true;
    }
    is_one_of(name, writes)
}

/// The first of the files that are written that has the name of one that is read, or of a later one.
pub fn same_name<'a>(reads: &[&str], library: Option<&str>, writes: &[&'a str]) -> Option<&'a str>
    ensures same { IfSome result (λ name. IsRepeated name.now
        (names_of reads.now ++ names_if (name_of library.entry)) (names_of writes.now)) }
    ensures apart { result ≡ None → AreApart
        (names_of reads.now ++ names_if (name_of library.entry)) (names_of writes.now) }
{
    let [output, more @ ..] = writes else {
        return None;
    };
    if is_among(*output, reads, library, more) {
        return Some(*output);
    }
    same_name(reads, library, more)
}
