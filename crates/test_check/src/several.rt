//! Texts with several faults.

use crate::verdict::all_as_wanted;
use std::test::Fail;

/// Of several faults the one at the least place is reported, and of those at one place the one
/// whose rule is first. Where an operand holds a fault, no rule on types fails for the operator.
const SEVERAL: &str = r"
int x; void x; int main(void){  return 0; } => Duplicate 12
int f(int a, void a){ return a; } int main(void){  return 0; } => Duplicate 18
int main(void){ int x; void x; return 0; } => Duplicate 28
void put; int main(void){  return 0; } => Duplicate 5
int main(void){ main = 1; return 0; } => UnknownName 16
int main(void){ main++; return 0; } => UnknownName 16
int main(void){ break; x; return 0; } => JumpOutsideLoop 16
int main(void){ x; break; return 0; } => UnknownName 16
int main(void){ x; y; z; return 0; } => UnknownName 16
int f(void){ return x; } int y; int y; int main(void){  return 0; } => UnknownName 20
int y; int y; int f(void){ return x; } int main(void){  return 0; } => Duplicate 11
int a = {1}; int a; int main(void){  return 0; } => BadInitialiser 8
int y; int y; int f(void){ return x; } => NoMain 0
int *p; int main(void){ p + p * x; return 0; } => UnknownName 32
int *p; int main(void){ p = x * p; return 0; } => UnknownName 28
int *p; int main(void){ if (p * 1) x; return 0; } => TypeClash 30
void main(void){ x; } => TypeClash 5
int main(void){ put(x); put(); return 0; } => UnknownName 20
int main(void){ put(); put(x); return 0; } => ArgCount 16
int *p; int main(void){ __try { break; } __except (p) { x; } return 0; } => JumpOutsideLoop 32
int *p; int main(void){ __try { } __except (p) { x; } return 0; } => TypeClash 44
int main(void){ do x; while (y); return 0; } => UnknownName 19
int main(void){ for (int i = x;y;z) w; return 0; } => UnknownName 29
int main(void){  return y; } int x; char *x; int y2; => UnknownName 24
int main(void){ int *q = x; return 0; } int *x; int x; => Duplicate 52
int main(void){ put(1); return 0; } int put(int a, int b){ return a; } => Duplicate 40
";

#[test]
fn several(rt: HostRuntime) -> Result<(), Fail> {
    all_as_wanted(&rt, rt.alloc(), &[SEVERAL])
}
