//! What `selftest` answers.

use crate::inputs::all_answer;

/// Of each kind of function there are 64. The first number is the sum of all constants, (N + K)
/// modulo 97 for each K from 0 to 255: 9,312 for two rounds of 97, and then 62 numbers from N
/// modulo 97 on, which is 78 for the greatest N. The second counts the `__try` blocks that a
/// `return` leaves. A function that divides shows two events, one that returns out of a `__try`
/// one, one of collided exceptions eight, and `main` two.
const SUMMARIES: &str = r"
selftest 0 | text | 0 selftest 0 / 11203 / 64 / exit 0 / events 706
selftest 1 | text | 0 selftest 1 / 11265 / 64 / exit 0 / events 706
selftest 96 | text | 0 selftest 96 / 11238 / 64 / exit 0 / events 706
selftest 9223372036854775807 | text | 0 selftest 9223372036854775807 / 11868 / 64 / exit 0 / events 706
";

#[test]
fn generated_programs_run(rt: HostRuntime) {
    all_answer(&rt, rt.alloc(), SUMMARIES);
}
