//! Bodies of each form of statement and expression, in which each trap comes.

/// The lines before a body, which stands from line 11 on. It has an element and a view to write, a view to read, and two captured scalars.
pub(crate) const BEFORE: &str =
    "const int N = 3; const int M = -7; int over(int N) { return N * 2; }
int one(void) { return 1; } int add(int a, int b) { return a + b; } int mix(int a, int b, int c) { return a * 100 + b * 10 + c; }
int off(int a) { if (a) return 5; } int none(void) { } int two(int a) { a = a + one(); return a + one(); }
int nested(int n) { int i, j; for (i = 0; i < n; i++) { j = 0; while (1) { if (i * j > 6) return i * 10 + j; if (j > i) break; j++; } } return -1; }
int fresh(int n) { int i, s = 0; for (i = 0; i < n; i++) { int a[3]; s += a[i % 3]; a[i % 3] = 7; s = s * 2 + a[0]; } return s; }
int deep(int n) { while (n) { for (;;) { if (n > 3) return two(n) + nested(n); n++; continue; } } return off(n); }
int hide(int a) { int b = a; { int a = 7; b = b * 10 + a; } for (int a = 3; a; a--) { int b = a; b++; } if (b) { int a = b; b = a + 1; } return b * 10 + a; }
int main(void) {
int s __attribute__((stream)); int c = 5, d = -2, y, w[4], v[3];
#pragma omp task input(osin >> v[3]) output(s << y, s << w[4])
";

/// The bodies, with `====` between them; a comment tells of one and those that follow.
pub(crate) const STATEMENTS: &str = r"// Nothing, and one statement.
;
====
{ }
====
{ ; ; { } ; }
====
y = 1;
====
w[3] = y;
====
none();
====
if (c) y = 1;
====
while (c) c--;
====
for (; c; c--) y++;
====
// Captured scalars, constants and the length of the input.
y = c * 10 + d;
====
{ c = d; d = 7; y = c + d; }
====
{ c += 3; d <<= 1; y = c; }
====
{ c++; --d; y = c * d; }
====
y = N * M + osin_len;
====
{ int n = N; n -= M; y = n; }
====
// First values, and what a declaration leaves.
{ int x; y = x; }
====
{ int x = x + 3; y = x; }
====
{ int x = 1, z = x + 1, u = z * 2; y = u; }
====
{ int a[4]; y = a[0] + a[3]; }
====
{ int a[N], b = 4; a[2] = b; y = a[2] + a[0]; }
====
{ int i; for (i = 0; i < 3; i++) { int x; y += x; x = 100; } }
====
{ int i; for (i = 0; i < 3; i++) { int a[2], k; y += a[1] + a[0] + k; a[1] = 9; a[0] = 8; k = 7; } }
====
{ int i; for (i = 0; i < 3; i++) { int x = x * 2 + i; y = y * 10 + x; x = 50; } }
====
y = fresh(7);
====
// Shadowing.
{ int y = 4; y++; }
====
{ int c = c; c++; y = c; }
====
{ int x = 1; { int x = 2; { int x = 3; y = y * 10 + x; } y = y * 10 + x; } y = y * 10 + x; }
====
{ int x = 1; for (int x = 5; x < 7; x++) { int x = 9; y += x; } y = y * 10 + x; }
====
{ int x = 1; if (x) { int x = 6; y = x; } else { int x = 7; y = x; } y += x; }
====
{ int x = 2; while (x) { int z = x; x--; { int x = z; y += x; } } }
====
{ int a[2]; a[0] = 3; { int a = 7; y = a; } y += a[0]; }
====
{ int x = 4; { int x[3]; x[1] = 5; y = x[1]; } y += x; }
====
{ int one = 3; y = one; }
====
{ int N = 9; y = N; { int M[2]; M[1] = N; y += M[1]; } }
====
{ int osin_len = 12; y = osin_len; }
====
{ int v = 3; int w = 4; y = v + w; }
====
{ int d[3]; d[2] = c; int c = 8; y = d[2] * 10 + c; }
====
y = hide(4);
====
y = over(5) * 10 + N;
====
{ int x = 3; for (int x = 0, z = x; x < 2; x++) { int z = x + 5; y = y * 10 + z; } y = y * 10 + x; }
====
// Views.
{ w[0] = v[0]; w[1] = v[1] + v[2]; w[2] += v[0]; w[3]++; --w[3]; }
====
{ int i; for (i = 0; i < 4; i++) w[i] = v[i % 3] * i; }
====
w[v[0] % 4] = v[v[0] % 3];
====
{ w[1] = 2; w[w[1]] = 3; w[w[w[1]]] = 4; y = w[1] * 100 + w[2] * 10 + w[3]; }
====
{ y = 5; y += y; y *= y; y = -y; }
====
w[4] = 1;
====
w[-1] = 1;
====
y = v[3];
====
y = v[-1];
====
w[4]++;
====
{ int a[3]; a[1] = 4; a[a[1]] = 1; }
====
{ int a[3]; --a[3]; }
====
{ int a[3]; a[0] += a[-2]; }
====
// The order of traps, and their lines.
{ int a[2]; a[2] = 1 / 0; }
====
{ int a[2]; a[1 / 0] = a[2]; }
====
w[4] = 1 / 0;
====
w[1 / 0] = v[3];
====
y = v[3] + 1 / 0;
====
y = 1 / 0 + v[3];
====
{

y = 1
+ 1
/ 0; }
====
{ y = 2147483647;
y
++; }
====
{ y = -2147483647;
y--;
--
y; }
====
{ int a[2];
a
[
2] = 1; }
====
{ int a[2];
a[1]
/=
0; }
====
w
[3]
<<=
32;
====
{ w[1] = 3; w
[1] -= -2147483647
+ 4; }
====
y = add(1,
2147483647) + add(1
, 1 / 0);
====
y = add(2147483647, 1);
====
{ y = 1; if (y
/ (y - 1)) y = 2; }
====
{ while (1
<< 31) ; }
====
{ int i; for (i = 0; 3 / (2 - i)
; i++) y = i; }
====
{ int i; for (i = 2147483646; ; i
++) y = i; }
====
{ int x = 1
<< -1; }
====
y = -(-2147483647
- 1);
====
y = - (-2147483647 - 1) + 1 / 0;
====
// Conditions that settle at the left.
y = c && d;
====
y = 0 && 1 / 0;
====
y = 1 || 1 / 0;
====
y = 1 && 0 || 1 && 3;
====
y = (c || 1 / 0) && (0 || d) && !(0 && 1 / 0);
====
y = c ? d ? 1 : 1 / 0 : 1 / 0;
====
y = 0 ? 1 / 0 : c ? 7 : 1 / 0;
====
y = c > 4 && c < 6 && one() && d == -2;
====
if (0 && 1 / 0) y = 1; else y = 2;
====
if (c || 1 / 0) y = 1; else y = 1 / 0;
====
if (!(c && d)) y = 1;
====
{ while (c && c != 2 && 6 / (c - 2)) c--; y = c; }
====
{ int i; for (i = 0; i < 3 || 1 / (i - 3); i++) y = i; }
====
{ int i; for (i = 0; i < 4 && 6 / (3 - i); i++) y = i; }
====
y = (c < d) + (c <= d) * 2 + (c > d) * 4 + (c >= d) * 8 + (c == d) * 16 + (c != d) * 32;
====
y = !c + !!c * 2 + ~c + +d + -d;
====
// Branches.
{ if (c) if (0) y = 1; else y = 2; }
====
{ if (c) { if (0) y = 1; } else y = 2; }
====
if (c - 5) y = 1; else if (d + 2) y = 2; else if (c) y = 3; else y = 4;
====
if (c) ; else y = 1;
====
if (c) { } else { }
====
if (c) while (c) if (d) c--; else c++; else y = 9;
====
// Loops.
{ int i; for (i = 0; i < 3; i++) ; y = i; }
====
{ int i = 0; for (; i < 3; i++) y += i; }
====
{ int i; for (i = 0; ; i++) if (i > 3) break; else y += i; }
====
{ int i; for (i = 0; i < 3; ) { y += i; i++; } }
====
{ int i = 0; for (; ; ) { if (i > 3) break; i++; y = i; } }
====
{ int i = 0; for (; i < 3; ) { i++; y += i; } }
====
{ for (int i = 4; i > 0; i -= 2) y = y * 10 + i; }
====
{ for (int i = 0, j = 5; i < j; i++) { j--; y = i * j; } }
====
{ for (int i; i < 3; i++) y += i + 1; }
====
for (;;) break;
====
while (1) break;
====
for (;;) { break; y = 1 / 0; }
====
{ while (c) { c--; continue; y = 1 / 0; } y = c; }
====
for (; c; c--) continue;
====
for (;;) ;
====
while (1) continue;
====
for (;;) continue;
====
{ while (0) y = 1 / 0; y = 2; }
====
// Breaks and continues in loops inside one another.
{ int i, j; for (i = 0; i < 4; i++) { for (j = 0; j < 4; j++) { if (j == i) break; y += j + 1; } } }
====
{ int i, j; for (i = 0; i < 4; i++) { for (j = 0; j < 4; j++) { if (j == i) continue; y = (y * 3 + j) % 1009; } if (i == 2) break; } }
====
{ int i = 0, j; while (i < 4) { i++; if (i == 2) continue; j = 0; while (1) { j++; if (j > i) break; if (j % 2) continue; y += j; } } }
====
{ int i, j; for (i = 0; i < 5; i++) { j = i; while (j) { j--; if (j == 2) break; } if (j) continue; y += 10 + i; } }
====
{ int i = 3; while (i) { int j; i--; for (j = 0; j < 3; j++) { if (i == 1) continue; if (j == 2) break; y = y * 4 + i + j; } y++; } }
====
{ int i = 3; while (i) { i--; while (1) { for (;;) { break; } break; } if (i) continue; break; } y = i; }
====
{ int i; for (i = 0; i < 9; i++) { if (i < 2) { if (i) { continue; } else { y = 1; continue; } } else if (i == 6) { break; } y = y * 2 + i; } }
====
{ int i; for (i = 0; i < 3; i++) { { { continue; } } } y = i; }
====
{ int i; for (i = 0; i < 30; i++) { int a[2]; { int b = i; a[1] += b; if (b > 4) { break; } } y += a[1]; } }
====
// Calls.
y = mix(one(), add(one(), 1), add(add(one(), one()), one()));
====
y = mix(mix(1, 2, 3), mix(c, d, c), mix(one(), two(3), nested(4)));
====
y = off(0) * 10 + off(1);
====
y = off(1 / 0);
====
{ off(1); none(); two(two(two(1))); y = none(); }
====
y = nested(3) * 1000 + nested(9);
====
y = deep(1) + deep(0);
====
y = add(1, 2) * add(3, 4) - add(add(5, 6), 7) % add(2, 3);
====
{ int i; for (i = nested(1); i < two(1); i += one()) y = y * 2 + add(i, one()); }
====
{ int a[8]; a[two(1)] = two(2); a[add(one(), two(1))] += a[two(1)]; y = a[3] * 10 + a[4]; }
====
while (two(c) > 4) c -= one();
";
