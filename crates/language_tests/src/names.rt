//! What each name means, for whole programs: the value of a constant, the number of a function, slots, streams and
//! items, each beside the place of the name among the tokens.

use crate::told::{Told, are_told_so};

/// Programs with `====` between them, and behind each, under `----`, how many streams it has and what its names mean by their places.
const CASES: &str = "// A window of three elements that moves by one.
int main(void) {
    int i;
    for (i = 0; i + 2 < osin_len; i++) {
        int w[3], y;
        #pragma omp task input(osin >> w[1]) output(osout << y)
        y = (w[0] + w[1] + w[2]) / 3;
    }
    return 0;
}
----
2 streams
7 Scalar(1)
11 Scalar(1)
15 Scalar(1)
19 Scalar(0)
21 Scalar(1)
26 Window(2)
31 Scalar(3)
38 Stream { first: 0, count: 1 }
40 Window(2)
47 Stream { first: 1, count: 1 }
49 Scalar(3)
52 Element(1)
55 View(0)
60 View(0)
65 View(0)
====
// Two tasks with a stream between them, and a function that one of them calls.
int wrap(int d) {
    return ((d + 128) & 255) - 128;
}
int main(void) {
    int mid __attribute__((stream));
    int i;
    for (i = 0; i + 1 < osin_len; i += 2) {
        int a[2], m[2], q[2], o[2];
        #pragma omp task input(osin >> a[2]) output(mid << m[2])
        {
            int d = wrap(a[1] - a[0]);
            m[0] = (a[0] + (d >> 1)) & 255;
            m[1] = d;
        }
        #pragma omp task input(mid >> q[2]) output(osout << o[2])
        {
            o[0] = q[0];
            o[1] = (q[1] / 4) & 255;
        }
    }
    return 0;
}
----
3 streams
4 Scalar(0)
10 Scalar(0)
28 Stream { first: 2, count: 1 }
37 Scalar(1)
41 Scalar(1)
45 Scalar(1)
49 Scalar(0)
51 Scalar(1)
57 Window(2)
62 Window(3)
67 Window(4)
72 Window(5)
82 Stream { first: 0, count: 1 }
84 Window(2)
91 Stream { first: 2, count: 1 }
93 Window(3)
101 Scalar(0)
103 Function(0)
105 View(0)
110 View(0)
116 View(1)
122 View(0)
128 Scalar(0)
136 View(1)
141 Scalar(0)
149 Stream { first: 2, count: 1 }
151 Window(4)
158 Stream { first: 1, count: 1 }
160 Window(5)
167 View(1)
172 View(0)
177 View(1)
183 View(0)
====
// An array of three streams, each read in turn.
int main(void) {
    int s[3] __attribute__((stream));
    int i, j;
    for (i = 0; i < osin_len; i++) {
        int x, p, q, r, y;
        #pragma omp task input(osin >> x) output(s[0] << p, s[1] << q, s[2] << r)
        { p = x; q = x >> 1; r = x >> 2; }
        for (j = 0; j < 3; j++) {
            #pragma omp task input(s[j] >> x) output(osout << y)
            y = x;
        }
    }
    return 0;
}
----
5 streams
7 Stream { first: 2, count: 3 }
19 Scalar(1)
21 Scalar(2)
25 Scalar(1)
29 Scalar(1)
31 Scalar(0)
33 Scalar(1)
38 Scalar(3)
40 Scalar(4)
42 Scalar(5)
44 Scalar(6)
46 Scalar(7)
53 Stream { first: 0, count: 1 }
55 Scalar(3)
59 Stream { first: 2, count: 3 }
64 Scalar(4)
66 Stream { first: 2, count: 3 }
71 Scalar(5)
73 Stream { first: 2, count: 3 }
78 Scalar(6)
82 Element(1)
84 Element(0)
86 Element(2)
88 Element(0)
92 Element(3)
94 Element(0)
101 Scalar(2)
105 Scalar(2)
109 Scalar(2)
118 Stream { first: 2, count: 3 }
120 Scalar(2)
123 Scalar(3)
127 Stream { first: 1, count: 1 }
129 Scalar(7)
132 Element(1)
134 Element(0)
====
// Functions are numbered in the order of the text, and their parameters are their first slots.
int one() { return 1; }
const int TWO = 2;
int add(int a, int b) { int c = b; return a + c; }
int main(void) {
    int x = add(one(), add(TWO, 3));
    add(x, x);
}
int last(int n) { return add(n, one()); }
int after(int a, int b, int c) { last(c); return last(a - b); }
----
2 streams
19 Scalar(0)
22 Scalar(1)
26 Scalar(2)
28 Scalar(1)
31 Scalar(0)
33 Scalar(2)
43 Scalar(1)
45 Function(1)
47 Function(0)
51 Function(1)
53 Constant(2)
59 Function(1)
61 Scalar(1)
63 Scalar(1)
71 Scalar(0)
75 Function(1)
77 Scalar(0)
79 Function(0)
89 Scalar(0)
92 Scalar(1)
95 Scalar(2)
98 Function(3)
100 Scalar(2)
104 Function(3)
106 Scalar(0)
108 Scalar(1)
====
// Constants mean their values, as sizes too.
const int SHIFT = -7;
const int SIZE = 3;
const int LOW = -2147483647;
const int ZERO = -0;
int f(int n) {
    int a[SIZE], b;
    b = a[n] + SHIFT;
    return b < LOW ? LOW : b;
}
int main(void) {
    int w[SIZE], z = ZERO;
    #pragma omp task
    { int k[SIZE]; k[ZERO] = LOW; }
}
----
2 streams
31 Scalar(0)
35 Array { first: 1, size: 3 }
37 Constant(3)
40 Scalar(4)
42 Scalar(4)
44 Array { first: 1, size: 3 }
46 Scalar(0)
49 Constant(-7)
52 Scalar(4)
54 Constant(-2147483647)
56 Constant(-2147483647)
58 Scalar(4)
68 Window(1)
70 Constant(3)
73 Scalar(2)
75 Constant(0)
83 Array { first: 0, size: 3 }
85 Constant(3)
88 Array { first: 0, size: 3 }
90 Constant(0)
93 Constant(-2147483647)
====
// A local array has as many slots as its size.
int f(int a) {
    int b, c[4], d;
    { int e[2], g; g = e[1]; d = g; }
    int h = c[d];
    return h + a + b;
}
int main(void) {
    int i, y;
    #pragma omp task output(osout << y)
    {
        int k[5], n;
        n = k[i];
        y = n;
    }
}
----
2 streams
4 Scalar(0)
8 Scalar(1)
10 Array { first: 2, size: 4 }
15 Scalar(6)
19 Array { first: 7, size: 2 }
24 Scalar(9)
26 Scalar(9)
28 Array { first: 7, size: 2 }
33 Scalar(6)
35 Scalar(9)
39 Scalar(10)
41 Array { first: 2, size: 4 }
43 Scalar(6)
47 Scalar(10)
49 Scalar(0)
51 Scalar(1)
61 Scalar(1)
63 Scalar(2)
70 Stream { first: 1, count: 1 }
72 Scalar(2)
77 Array { first: 1, size: 5 }
82 Scalar(6)
84 Scalar(6)
86 Array { first: 1, size: 5 }
88 Scalar(0)
91 Element(0)
93 Scalar(6)
====
// Captured scalars come first, in the order of their declarations, and `osin_len` before all.
int main(void) {
    int a, b, c, d, y;
    #pragma omp task output(osout << y) firstprivate(d)
    {
        int k = c;
        y = a + osin_len + k + c;
    }
    #pragma omp task firstprivate(osin_len), output(osout << y), firstprivate(b)
    {
        int c, a;
        c = d;
        y = b + a;
    }
    #pragma omp task
    { d = a; d++; }
    a = d;
}
----
2 streams
7 Scalar(1)
9 Scalar(2)
11 Scalar(3)
13 Scalar(4)
15 Scalar(5)
22 Stream { first: 1, count: 1 }
24 Scalar(5)
28 Scalar(4)
33 Scalar(4)
35 Scalar(2)
37 Element(0)
39 Scalar(1)
41 Scalar(0)
43 Scalar(4)
45 Scalar(2)
53 Scalar(0)
58 Stream { first: 1, count: 1 }
60 Scalar(5)
65 Scalar(2)
70 Scalar(3)
72 Scalar(4)
74 Scalar(3)
76 Scalar(2)
78 Element(0)
80 Scalar(1)
82 Scalar(4)
90 Scalar(1)
92 Scalar(0)
94 Scalar(1)
98 Scalar(1)
100 Scalar(4)
====
// What stands in clauses belongs to the control program, and what they name is hidden in the body alone.
int main(void) {
    int t[2] __attribute__((stream));
    int x, y, w[8], v[8];
    #pragma omp task input(osin >> x, t[x] >> w[x + y]) output(osout << y, t[y] << v[x]) firstprivate(osin_len)
    { y = x + w[x]; v[y] = osin_len; { int w = x; w++; } }
    { int x, w; x = w; }
    x++;
}
----
4 streams
7 Stream { first: 2, count: 2 }
19 Scalar(1)
21 Scalar(2)
23 Window(3)
28 Window(4)
38 Stream { first: 0, count: 1 }
40 Scalar(1)
42 Stream { first: 2, count: 2 }
44 Scalar(1)
47 Window(3)
49 Scalar(1)
51 Scalar(2)
56 Stream { first: 1, count: 1 }
58 Scalar(2)
60 Stream { first: 2, count: 2 }
62 Scalar(2)
65 Window(4)
67 Scalar(1)
72 Scalar(0)
76 Element(2)
78 Element(0)
80 View(1)
82 Element(0)
85 View(3)
87 Element(2)
90 Scalar(0)
94 Scalar(1)
96 Element(0)
98 Scalar(1)
105 Scalar(5)
107 Scalar(6)
109 Scalar(5)
111 Scalar(6)
114 Scalar(1)
====
// Items are numbered through all clauses of their task, with a stream that stands alone among them.
int main(void) {
    int s __attribute__((stream)), t[2] __attribute__((stream)), u __attribute__((stream));
    int w[4], x;
    #pragma omp tick(t[1] >> x)
    #pragma omp task input(s, t[0] >> w[3]) firstprivate(x) output(u)
    { u = s + w[x]; x = 0; }
    #pragma omp task output(s << x)
    x = osin_len;
    #pragma omp taskwait
}
----
6 streams
7 Stream { first: 2, count: 1 }
15 Stream { first: 3, count: 2 }
26 Stream { first: 5, count: 1 }
35 Window(1)
40 Scalar(2)
46 Stream { first: 3, count: 2 }
51 Scalar(2)
59 Stream { first: 2, count: 1 }
61 Stream { first: 3, count: 2 }
66 Window(1)
73 Scalar(2)
77 Stream { first: 5, count: 1 }
81 Element(2)
83 Element(0)
85 View(1)
87 Scalar(0)
90 Scalar(0)
100 Stream { first: 2, count: 1 }
102 Scalar(2)
105 Element(0)
107 Scalar(0)
====
// The innermost declaration counts, from the end of its declarator on.
const int v = 5;
int f(int v) {
    { int v = v; v = v + 1; }
    return v;
}
int g() { return v; }
int main(void) {
    int f = v;
    int v = f, osin_len = v;
    { int v[v]; int f = osin_len; f = g(); }
    v = f;
}
----
2 streams
10 Scalar(0)
15 Scalar(1)
17 Scalar(1)
19 Scalar(1)
21 Scalar(1)
27 Scalar(0)
36 Constant(5)
46 Scalar(1)
48 Constant(5)
51 Scalar(2)
53 Scalar(1)
55 Scalar(3)
57 Scalar(2)
61 Window(4)
63 Scalar(2)
67 Scalar(5)
69 Scalar(3)
71 Scalar(5)
73 Function(1)
78 Scalar(2)
80 Scalar(1)
====
// What a loop declares in its head is in scope in the loop alone.
int f(int n) {
    int i = 9;
    for (int i = 0, j = i; i < n; i++) { int i = j; n = i; }
    for (int i; ; ) { while (i) break; }
    for (i = 0; ; i--) for (int k = i; k; ) return k;
    return i;
}
int main(void) {
    for (int i = 0; i < 4; i++) {
        int y;
        #pragma omp task output(osout << y)
        for (int k = i; k < 4; k++) { int i; y = i + k; }
    }
}
----
2 streams
4 Scalar(0)
8 Scalar(1)
15 Scalar(2)
19 Scalar(3)
21 Scalar(2)
23 Scalar(2)
25 Scalar(0)
27 Scalar(2)
32 Scalar(4)
34 Scalar(3)
36 Scalar(0)
38 Scalar(4)
44 Scalar(5)
51 Scalar(5)
58 Scalar(1)
63 Scalar(1)
69 Scalar(6)
71 Scalar(1)
73 Scalar(6)
77 Scalar(6)
80 Scalar(1)
92 Scalar(1)
96 Scalar(1)
100 Scalar(1)
105 Scalar(2)
112 Stream { first: 1, count: 1 }
114 Scalar(2)
120 Scalar(1)
122 Scalar(0)
124 Scalar(1)
128 Scalar(1)
133 Scalar(2)
135 Element(0)
137 Scalar(2)
139 Scalar(1)
====
// A constant as the size of an array of streams.
const int N = 3; int main(void) { int s[N] __attribute__((stream)), x; x = N; }
----
5 streams
13 Stream { first: 2, count: 3 }
15 Constant(3)
24 Scalar(1)
26 Scalar(1)
28 Constant(3)
====
// An array that just fits, with a scalar behind it, in a function and in a task.
int f() { int a[65536], b; b = a[0]; return b; } int main(void) { }
----
2 streams
6 Array { first: 0, size: 65536 }
11 Scalar(65536)
13 Scalar(65536)
15 Array { first: 0, size: 65536 }
21 Scalar(65536)
====
int main(void) {
int x;
#pragma omp task output(osout << x)
{ int a[65536], b; b = a[0]; x = b; }
}
----
2 streams
7 Scalar(1)
14 Stream { first: 1, count: 1 }
16 Scalar(1)
21 Array { first: 0, size: 65536 }
26 Scalar(65536)
28 Scalar(65536)
30 Array { first: 0, size: 65536 }
35 Element(0)
37 Scalar(65536)
====
// Arrays in both branches, with a declaration behind them.
int f(int p) {
    if (p) { int a[2]; a[0] = p; } else { int b[3]; b[0] = p; }
    int c; c = p; return c;
}
int main(void) { }
----
2 streams
4 Scalar(0)
9 Scalar(0)
13 Array { first: 1, size: 2 }
18 Array { first: 1, size: 2 }
23 Scalar(0)
29 Array { first: 3, size: 3 }
34 Array { first: 3, size: 3 }
39 Scalar(0)
43 Scalar(6)
45 Scalar(6)
47 Scalar(0)
50 Scalar(6)
====
// A task with an array between two declarations of `main`.
int main(void) {
int i;
#pragma omp task output(osout << i)
{ int a[5]; i = a[0]; }
int j;
j = 1;
}
----
2 streams
7 Scalar(1)
14 Stream { first: 1, count: 1 }
16 Scalar(1)
21 Array { first: 0, size: 5 }
26 Element(0)
28 Array { first: 0, size: 5 }
35 Scalar(2)
37 Scalar(2)
";

#[test]
fn each_name_means_what_is_declared(rt: HostRuntime) {
    are_told_so(&rt, rt.alloc(), Told::Names, CASES);
}

/// Each name has the type of its declaration, an element or a view that of its scalar or window, or of the stream alone. Under
/// `----` stand the names by their places, each with its type.
const TYPED: &str = "const unsigned N = -1;
const int M = 1u;
int f(unsigned a, int b) { unsigned c[2]; c[a] = b; return c[M] + N; }
unsigned g(void) { return f(1, 2); }
int main(void) {
unsigned s __attribute__((stream)), r[2] __attribute__((stream)), x, w[2]; int t __attribute__((stream)), y, i;
#pragma omp task input(s >> x, t >> w[1]) output(r[i] << y, t)
{ y = x + w[0] + t + i + g(); }
#pragma omp task input(s, osin >> x) output(osout << y)
y = s + x + osin_len;
}
----
17 unsigned
20 int
24 unsigned
29 unsigned
31 unsigned
34 int
37 unsigned
39 int
42 unsigned
52 int
67 unsigned
75 unsigned
86 unsigned
88 unsigned
94 int
102 int
104 int
111 unsigned
113 unsigned
115 int
117 unsigned
124 unsigned
126 int
129 int
131 int
135 int
137 unsigned
139 unsigned
144 int
146 int
148 unsigned
158 unsigned
160 int
162 unsigned
166 int
168 int
171 int
173 unsigned
175 unsigned
177 int
";

#[test]
fn each_name_has_the_type_of_its_declaration(rt: HostRuntime) {
    are_told_so(&rt, rt.alloc(), Told::Types, TYPED);
}
