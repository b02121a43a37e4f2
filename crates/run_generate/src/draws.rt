// What is drawn for the students.
ghost use Rattle.std.specs.Prelude.{◌≡◌, ◌+◌, ◌-◌, ◌<◌, ◌^◌, IfSome, MatchOption};
ghost use Rattle.run_generate.specs.Drawn.{draws_behind, drawn as drawn_of, later, next_number as number_behind};

/// The four draws of a student: the first tells the school, and the last whether and when the student leaves.
#[derive(Clone, Copy)]
pub struct Draws {
    pub school: u32,
    pub income: u32,
    pub credits: u32,
    pub leave: u32,
}

/// The students who weren't drawn yet: the number of the one before them, how many they are, and the number of the sequence
/// behind which they are drawn.
#[derive(Clone, Copy)]
pub struct Students {
    pub last: u16,
    pub left: u16,
    pub seed: u64,
    pub ghost few: { last + left < 2 ^ 16 },
}

// The next number of the sequence.
fn next_number(x: u64) -> u64
    ensures { result ≡ number_behind x }
{
    x.wrapping_mul(6_364_136_223_846_793_005)
        .wrapping_add(1_442_695_040_888_963_407)
}

// What a number gives.
fn drawn(x: u64) -> u32
    ensures { result ≡ drawn_of x }
{
    (x / 0x1_0000_0000) as u32
}

// The four draws behind a number, and the number behind which the next student is drawn.
fn draw(x: u64) -> (Draws, u64)
    ensures draws { result.0 ≡ draws_behind x }
    ensures seed { result.1 ≡ later x }
{
    let first = next_number(x);
    let second = next_number(first);
    let third = next_number(second);
    let fourth = next_number(third);
    let draws = Draws {
        school: drawn(first),
        income: drawn(second),
        credits: drawn(third),
        leave: drawn(fourth),
    };
    (draws, fourth)
}

/// Draws the next student: the draws, and the students behind. `None` where none is left.
pub fn next_student(students: &Students) -> Option<(Draws, Students)>
    ensures { MatchOption result (students.now.left ≡ 0)
        (λ r. (r.0 ≡ draws_behind students.now.seed) × (r.1.seed ≡ later students.now.seed) × (r.1.last ≡ students.now.last + 1) × (students.now.left ≡ r.1.left + 1)) }
{
    if students.left == 0 {
        return None;
    }
    let (draws, seed) = draw(students.seed);
    let behind = Students {
        last: students.last + 1,
        left: students.left - 1,
        seed,
    };
    Some((draws, behind))
}
