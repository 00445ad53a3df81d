//! The texts of the kernels.

/// Each byte taken from 255, in blocks of four.
pub const INVERT: &str = r"#include <stdio.h>
const int B = 4;
int main(void) {
    int i;
    for (i = 0; i < osin_len; i += B) {
        int n = osin_len - i < B ? osin_len - i : B;
        int a[n], b[n];
        #pragma omp task input(osin >> a[n]) output(osout << b[n])
        {
            int k;
            for (k = 0; k < n; k++) b[k] = 255 - a[k];
        }
    }
    return 0;
}
";

/// The mean of each three bytes in a row: windows that overlap.
pub const SMOOTH: &str = r"int main(void) {
    int i;
    for (i = 0; i + 2 < osin_len; i++) {
        int w[3], y;
        #pragma omp task input(osin >> w[1]) output(osout << y)
        y = (w[0] + w[1] + w[2]) / 3;
    }
    return 0;
}
";

/// A lossless wavelet step over pairs of bytes: the low part and the difference.
pub const LIFT: &str = r"int wrap(int d) {
    return ((d + 128) & 255) - 128;
}
int main(void) {
    int i;
    for (i = 0; i + 3 < osin_len; i += 4) {
        int a[4], b[4];
        #pragma omp task input(osin >> a[4]) output(osout << b[4])
        {
            int k, d;
            for (k = 0; k < 4; k += 2) {
                d = wrap(a[k + 1] - a[k]);
                b[k] = (a[k] + (d >> 1)) & 255;
                b[k + 1] = d & 255;
            }
        }
    }
    return 0;
}
";

/// The inverse of [`LIFT`].
pub const UNLIFT: &str = r"int wrap(int d) {
    return ((d + 128) & 255) - 128;
}
int main(void) {
    int i;
    for (i = 0; i + 3 < osin_len; i += 4) {
        int a[4], b[4];
        #pragma omp task input(osin >> a[4]) output(osout << b[4])
        {
            int k, d;
            for (k = 0; k < 4; k += 2) {
                d = wrap(a[k + 1]);
                b[k] = (a[k] - (d >> 1)) & 255;
                b[k + 1] = (b[k] + d) & 255;
            }
        }
    }
    return 0;
}
";

/// The step of [`LIFT`], and a second task that quantises the difference, with a stream between them.
pub const PIPELINE: &str = r"int wrap(int d) {
    return ((d + 128) & 255) - 128;
}
int main(void) {
    int mid __attribute__((stream));
    int i;
    for (i = 0; i + 1 < osin_len; i += 2) {
        int a[2], m[2], q[2], o[2];
        #pragma omp task input(osin >> a[2]) output(mid << m[2])
        {
            int d = wrap(a[1] - a[0]);
            m[0] = (a[0] + (d >> 1)) & 255;
            m[1] = d;
        }
        #pragma omp task input(mid >> q[2]) output(osout << o[2])
        {
            o[0] = q[0];
            o[1] = (q[1] / 4) & 255;
        }
    }
    return 0;
}
";

/// Each byte, its half and its quarter, by an array of three streams.
pub const BROADCAST: &str = r"int main(void) {
    int s[3] __attribute__((stream));
    int i, j;
    for (i = 0; i < osin_len; i++) {
        int x, p, q, r, y;
        #pragma omp task input(osin >> x) output(s[0] << p, s[1] << q, s[2] << r)
        { p = x; q = x >> 1; r = x >> 2; }
        for (j = 0; j < 3; j++) {
            #pragma omp task input(s[j] >> x) output(osout << y)
            y = x;
        }
    }
    return 0;
}
";
