//! Operators on pointers.

use crate::verdict::all_as_wanted;
use std::test::Fail;

/// Operators on pointers (C11, 6.5.2.1, 6.5.6, 6.5.8, 6.5.9 and 6.5.16.2). A fault is at the
/// operator.
const POINTERS: &str = r"
int *p; char *q; void *v; int x; void **w; int main(void){ p = p + 1; p = 1 + p; p = p - 'a'; x = p[1]; p[x] = 2; x = *p; x = p - p; w = w + 1; w[0] = p; v = *w; return 0; } => accepted
int *p; char *q; void *v; int x; int main(void){ x = p == 0; x = 0 != p; x = p < p; x = p < v; x = v >= q; x = p == (0); x = 0u == q; x = v == v; x = v == 0; return 0; } => accepted
int *p; char *q; void *v; int x; int main(void){ p += 1; p -= x; p++; --q; x = *p++; x = (*p)++; *p += 1; p[1] -= 2; return 0; } => accepted
int *p; char *q; void *v; int x; int main(void){ v + 1; return 0; } => TypeClash 51
int *p; char *q; void *v; int x; int main(void){ 1 + v; return 0; } => TypeClash 51
int *p; char *q; void *v; int x; int main(void){ v - 1; return 0; } => TypeClash 51
int *p; char *q; void *v; int x; int main(void){ v - v; return 0; } => TypeClash 51
int *p; char *q; void *v; int x; int main(void){ p - q; return 0; } => TypeClash 51
int *p; char *q; void *v; int x; int main(void){ p + p; return 0; } => TypeClash 51
int *p; char *q; void *v; int x; int main(void){ 1 - p; return 0; } => TypeClash 51
int *p; char *q; void *v; int x; int main(void){ p * 2; return 0; } => TypeClash 51
int *p; char *q; void *v; int x; int main(void){ p & 1; return 0; } => TypeClash 51
int *p; char *q; void *v; int x; int main(void){ p << 1; return 0; } => TypeClash 51
int *p; char *q; void *v; int x; int main(void){ -p; return 0; } => TypeClash 49
int *p; char *q; void *v; int x; int main(void){ ~p; return 0; } => TypeClash 49
int *p; char *q; void *v; int x; int main(void){ +p; return 0; } => TypeClash 49
int *p; char *q; void *v; int x; int main(void){ x = v[0]; return 0; } => TypeClash 54
int *p; char *q; void *v; int x; int main(void){ x = *v; return 0; } => TypeClash 53
int *p; char *q; void *v; int x; int main(void){ x = *x; return 0; } => TypeClash 53
int *p; char *q; void *v; int x; int main(void){ x = p[q]; return 0; } => TypeClash 54
int *p; char *q; void *v; int x; int main(void){ x = x[x]; return 0; } => TypeClash 54
int *p; char *q; void *v; int x; int main(void){ p == q; return 0; } => TypeClash 51
int *p; char *q; void *v; int x; int main(void){ p == 1; return 0; } => TypeClash 51
int *p; char *q; void *v; int x; int main(void){ p < x; return 0; } => TypeClash 51
int *p; char *q; void *v; int x; int main(void){ p == '\0'; return 0; } => TypeClash 51
int *p; char *q; void *v; int x; int main(void){ p >= 1; return 0; } => TypeClash 51
int *p; char *q; void *v; int x; int main(void){ v++; return 0; } => TypeClash 50
int *p; char *q; void *v; int x; int main(void){ --v; return 0; } => TypeClash 49
int *p; char *q; void *v; int x; int main(void){ p *= 2; return 0; } => TypeClash 51
int *p; char *q; void *v; int x; int main(void){ v += 1; return 0; } => TypeClash 51
int *p; char *q; void *v; int x; int main(void){ p += p; return 0; } => TypeClash 51
int *p; char *q; void *v; int x; int main(void){ x += p; return 0; } => TypeClash 51
int *p; char *q; void *v; int x; int main(void){ p |= 0; return 0; } => TypeClash 51
int *p; char *q; void *v; int x; int main(void){ x <<= p; return 0; } => TypeClash 51
";

#[test]
fn pointers(rt: HostRuntime) -> Result<(), Fail> {
    all_as_wanted(&rt, rt.alloc(), &[POINTERS])
}
