// The people of the made files.
ghost use Rattle.std.specs.Prelude.{◌≡◌, ◌<◌, IfSome};
ghost use Rattle.link_base.specs.Standard.{IsDay};
ghost use Rattle.link_limits.specs.declared.TheConstants.{MOST_ROWS};
ghost use Rattle.workload.specs.People.{changed, person};

/// A made person: the numbers of the surname and of the given name, and the day of birth, where it is given.
#[derive(Clone, Copy)]
pub struct Person {
    pub surname: u16,
    pub given: u8,
    pub birth: Option<i32>,
}

/// The person of a row of A.
pub fn person_of(row: u32) -> Person
    requires { row < MOST_ROWS }
    ensures person { result ≡ person row }
    ensures day { IfSome result.birth (λ day. IsDay day) }
{
    Person {
        surname: ((37 * row + 11) % 65_536) as u16,
        given: ((5 * row + 3) % 256) as u8,
        birth: Some((13 * row % 20_000) as i32 - 10_000),
    }
}

/// The person of a row of B: that of A, with the change of the row.
pub fn changed_of(row: u32) -> Person
    requires { row < MOST_ROWS }
    ensures person { result ≡ changed row }
    ensures day { IfSome result.birth (λ day. IsDay day) }
{
    let same = person_of(row);
    match row % 10 {
        3 => Person {
            given: same.given.wrapping_add(1),
            ..same
        },
        7 => Person {
            birth: None,
            ..same
        },
        9 => Person {
            surname: same.surname.wrapping_add(1),
            ..same
        },
        _ => same,
    }
}
