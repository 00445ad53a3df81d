//! Bodies that set `y`, the one element that their task writes to a declared stream. They stand from line 5 on.

/// The lines before a body.
pub const BEFORE: &str = "int one(void) { return 1; } int f(int a) { return a + 1; } int g(void) { }
int pair(int a, int b) { return 10 * a + b; } int twice(int a) { return f(f(a)); }
int main(void) { int s __attribute__((stream)); int y;
#pragma omp task output(s << y)
";

/// Rows, with a blank line between them: the budget of a body, how it ends, and on the next lines the body.
pub const BODIES: &str = "0 Done 85
y = (2 && -3) + 2 * (0 || 0) + 4 * (0 || 7) + 8 * !5 + 16 * !0 + 32 * (0 && 1 / 0) + 64 * (5 || 1 / 0);

0 Done 2
y = 1 ? 2 : 1 / 0;

0 Done 4
y = 0 ? 1 / 0 : 3 ? 4 : 1 / 0;

0 trapped 2 line 5
y = 1 && 1 / 0;

0 trapped 1 line 5
y = 0 || 2147483647 + 1;

0 Done 1
y = 1 || one();

1 over budget
y = 0 || one() && one();

2 Done 1
y = 0 || one() && one();

0 Done 1
y = 0 && one() || 3;

0 Done 5
y = -1 ? 5 : one();

0 Done 1
y = 3 & 5 == 5;

0 Done 1
y = 1 < 2 == 1;

0 Done 1
y = 5 - 3 - 1;

0 Done 2
y = 2 - 3 * -4 % 3;

0 Done -31
y = -7 / 2 * 10 + -7 % 3;

0 Done 250
y = ~5 & 255;

0 Done -4
y = -7 >> 1;

0 Done 13
y = 6 ^ 3 | 8;

0 Done 1
y = 7 % -3;

0 Done -1
y = -7 % -3;

0 Done -1
y = -1 >> 31;

0 Done 2147483646
y = 1073741823 << 1;

0 Done 0
y = 0 << 31;

0 Done -1
y = -1 >> 0;

0 Done 0
y = 2147483647 >> 31;

0 Done -2147483648
y = (-2147483647 - 1) / 1;

0 Done 0
y = (-2147483647 - 1) % 1;

0 Done -2147483648
y = -65536 * 32768;

0 Done -2147483648
y = +(-2147483647 - 1);

0 Done -2147483648
y = ~2147483647;

0 trapped 3 line 5
y = 1 << -1;

0 trapped 3 line 5
y = 1 << 32;

0 trapped 3 line 5
y = -1 << 0;

0 trapped 3 line 5
y = 1 << 31;

0 trapped 3 line 5
y = 1 >> 32;

0 trapped 3 line 5
y = 1 >> -1;

0 trapped 3 line 5
y = 2 << 30;

0 trapped 1 line 5
y = -(-2147483647 - 1);

0 trapped 1 line 5
y = (-2147483647 - 1) % -1;

0 trapped 1 line 5
y = (-2147483647 - 1) / -1;

0 trapped 1 line 5
y = -2147483647 - 2;

0 trapped 1 line 5
y = 65536 * 32768;

0 trapped 1 line 5
y = 2147483647 - -1;

0 trapped 2 line 5
y = 5 % 0;

0 trapped 2 line 5
y = 0 / 0;

1 over budget
y = f(f(1));

2 Done 3
y = f(f(1));

1 Done 0
y = g();

5 over budget
{ int k; for (k = 0; k < 5; k++) y = k; }

6 Done 4
{ int k; for (k = 0; k < 5; k++) y = k; }

100 over budget
{ while (1) ; }

0 Done 0
y = 0 && 1 / 0;

0 Done -3
y = -7 / 2;

0 Done -1
y = -7 % 2;

0 Done 1073741824
y = 1 << 30;

0 trapped 1 line 5
y = 2147483647 * 2;

0 trapped 1 line 5
y = (-2147483647 - 1) * -1;

0 trapped 1 line 5
y = -2147483647 - 1 + -1;

0 Done 2147483647
y = 2147483647 + 0;

0 Done -2147483648
y = (-2147483647 - 1) - 0;

0 trapped 2 line 5
y = 1 % 0;

0 trapped 2 line 5
y = (-2147483647 - 1) / 0;

0 Done 0
y = 1 >> 31;

0 Done 1
y = 1 >> 0;

0 trapped 3 line 5
y = -5 << 1;

0 trapped 1 line 5
{ y = 2147483647; y++; }

0 trapped 1 line 5
{ y = -2147483647 - 1; --y; }

0 Done 2147483647
{ y = 2147483646; ++y; }

0 trapped 2 line 6
y = 1 +
1 / 0 +
(2147483647 + 1);

0 trapped 4 line 5
{ int a[2]; a[2] = 1; }

0 trapped 4 line 5
{ int a[2]; a[-1]++; }

0 trapped 2 line 6
{ int a[2]; y = a[
1 / 0]; }

0 Done 0
{ int a[2]; y = a[1] + a[0]; }

4 Done 3
{ int i = 0; while (i < 3) i++; y = i; }

3 over budget
{ int i = 0; while (i < 3) i++; y = i; }

4 Done 3
{ int i; for (i = 0; ; i++) if (i == 3) break; y = i; }

3 over budget
{ int i; for (i = 0; ; i++) if (i == 3) break; y = i; }

4 Done 2
{ int i; for (i = 0; i < 3; i++) { if (i == 1) continue; y += i; } }

3 over budget
{ int i; for (i = 0; i < 3; i++) { if (i == 1) continue; y += i; } }

3 Done 3
y = f(f(f(0)));

2 over budget
y = f(f(f(0)));

0 Done 0
y = 0 && f(1);

2 Done 1
{ g(); g(); y = 1; }

1 over budget
{ g(); g(); y = 1; }

1000 over budget
{ while (1) ; }

4 Done 15
{ int i; for (i = 0; i < 3; i++) { int x = x + 5; y += x; x = 9; } }

0 over budget
y = g();

1 Done 7
{ int a[3]; a[f(1)] = 7; y = a[2]; }

0 over budget
{ int a[3]; a[f(1)] = 7; y = a[2]; }

1 Done 5
{ int a[3]; a[1] = 5; y = a[f(0)]; }

0 over budget
{ int a[3]; a[1] = 5; y = a[f(0)]; }

2 Done 3
{ int a[3]; a[1] = 2; a[f(0)] += f(0); y = a[1]; }

1 over budget
{ int a[3]; a[1] = 2; a[f(0)] += f(0); y = a[1]; }

1 trapped 4 line 5
{ int a[2]; a[f(1)] = f(1); }

0 over budget
{ int a[2]; a[f(1)] = f(1); }

1 Done 2
{ int x = f(1); y = x; }

0 over budget
{ int x = f(1); y = x; }

1 Done 5
{ y = 3; y += f(1); }

0 over budget
{ y = 3; y += f(1); }

2 Done 13
y = pair(1, f(2));

1 over budget
y = pair(1, f(2));

3 Done 23
y = pair(f(1), f(2));

2 over budget
y = pair(f(1), f(2));

1 Done 2
y = f(1) ? 2 : 3;

0 over budget
y = f(1) ? 2 : 3;

1 Done 3
y = f(-1) ? 2 : 3;

0 over budget
y = f(-1) ? 2 : 3;

2 Done 4
y = f(-1) ? one() : f(3);

1 over budget
y = f(-1) ? one() : f(3);

1 Done 1
y = f(1) && 1;

0 over budget
y = f(1) && 1;

1 Done 1
y = 1 && f(1);

0 over budget
y = 1 && f(1);

2 Done 1
y = f(0) && f(1);

1 over budget
y = f(0) && f(1);

1 Done 0
y = f(-1) && f(1);

0 over budget
y = f(-1) && f(1);

1 Done 1
y = f(0) || 0;

0 over budget
y = f(0) || 0;

1 Done 1
y = 0 || f(0);

0 over budget
y = 0 || f(0);

2 Done 1
y = f(-1) || f(0);

1 over budget
y = f(-1) || f(0);

1 Done 1
y = f(0) || f(1);

0 over budget
y = f(0) || f(1);

3 Done 3
y = twice(1);

2 over budget
y = twice(1);

1 Done 4
if (f(0)) y = 4;

0 over budget
if (f(0)) y = 4;

6 Done -1
{ int i = -3; while (f(i)) i++; y = i; }

5 over budget
{ int i = -3; while (f(i)) i++; y = i; }

5 Done 6
{ int i; for (i = 0; i < 2; i = f(i)) y += 3; }

4 over budget
{ int i; for (i = 0; i < 2; i = f(i)) y += 3; }

2 Done -6
y = -f(1) * f(2);

1 over budget
y = -f(1) * f(2);

1 trapped 2 line 5
y = f(1) / 0;

0 over budget
y = f(1) / 0;";
