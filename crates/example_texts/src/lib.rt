//! The texts of `examples/*.c`, but for those that are kernels.
//!
//! A test reads no file, so they stand here as they stand in their files; `tests/command.sh` compares the two.
#![tactic(auto)]

/// `examples/adler.c`
pub static ADLER: &str =
    r"// The Adler-32 of the input, that of zlib, as four bytes, the highest first.
//
// Its two numbers are a sum of the bytes and a sum of these sums, modulo 65,521. What a block adds to them doesn't hang on the bytes
// before it: one task a block sums up its bytes, all side by side, and a second one joins two numbers with two others, which is all
// that waits.

const int BLOCK = 4096;
const unsigned MODULUS = 65521;

int main(void) {
    unsigned parts __attribute__((stream)), sums __attribute__((stream));
    unsigned part[2], before[2], after[2];
    int i, sum[4];
    #pragma omp task output(sums << after[2])
    after[0] = 1;
    for (i = 0; i < osin_len; i += BLOCK) {
        int n = osin_len - i < BLOCK ? osin_len - i : BLOCK;
        int a[n];
        // The sum of the bytes, and that of each byte as often as it is summed up within the block: below 2^32 for so short a block.
        #pragma omp task input(osin >> a[n]) output(parts << part[2])
        {
            int k;
            for (k = 0; k < n; k++) {
                part[0] += a[k];
                part[1] += part[0];
            }
            part[0] %= MODULUS;
            part[1] %= MODULUS;
        }
        #pragma omp task input(parts >> part[2], sums >> before[2]) output(sums << after[2])
        {
            after[0] = (before[0] + part[0]) % MODULUS;
            after[1] = (before[1] + n * before[0] + part[1]) % MODULUS;
        }
    }
    #pragma omp task input(sums >> before[2]) output(osout << sum[4])
    {
        sum[0] = before[1] >> 8;
        sum[1] = before[1] & 255;
        sum[2] = before[0] >> 8;
        sum[3] = before[0] & 255;
    }
    return 0;
}
";

/// `examples/adpcm.c`
pub static ADPCM: &str =
    r"// An adaptive delta coder: four bits for each sample of eight bits. Two samples make a byte, the first one its high half.
//
// The coder keeps a guess of the next sample and a step. A code says by how many quarters of the step the sample
// differs from the guess: small codes shrink the step, large ones let it grow, so that it follows the signal. Guess and
// step go from window to window through a stream of the program's own, `state`: each activation reads the two elements
// that the one before it wrote, and so waits for it.
// unadpcm.c gives back an even number of samples: those of a sine with 64 samples a period each within 4. What jumps, as
// noise does, is followed late.

// The guess behind a code: its lowest three bits are a size, the fourth one a sign.
int guess_after(int guess, int step, int code) {
    int change = (2 * (code & 7) + 1) * step / 8;
    guess += code & 8 ? -change : change;
    return guess < 0 ? 0 : guess > 255 ? 255 : guess;
}

// The step behind a code.
int step_after(int step, int code) {
    int size = code & 7;
    step = step * (size < 4 ? 58 : size == 4 ? 77 : size == 5 ? 93 : size == 6 ? 112 : 137) / 64;
    return step < 4 ? 4 : step > 127 ? 127 : step;
}

// The code for a difference.
int code_of(int difference, int step) {
    int size = (difference < 0 ? -difference : difference) * 4 / step;
    return (size > 7 ? 7 : size) + (difference < 0 ? 8 : 0);
}

int main(void) {
    int state __attribute__((stream));
    int i, first[2];
    #pragma omp task output(state << first[2])
    { first[0] = 128; first[1] = 16; }
    for (i = 0; i < osin_len; i += 64) {
        int n = osin_len - i < 64 ? osin_len - i : 64;
        int m = (n + 1) / 2;
        int sample[n], before[2], byte[m], after[2];
        #pragma omp task input(osin >> sample[n], state >> before[2]) output(osout << byte[m], state << after[2])
        {
            int k, code, guess = before[0], step = before[1];
            for (k = 0; k < n; k++) {
                code = code_of(sample[k] - guess, step);
                byte[k / 2] |= k % 2 ? code : code << 4;
                guess = guess_after(guess, step, code);
                step = step_after(step, code);
            }
            after[0] = guess;
            after[1] = step;
        }
    }
    return 0;
}
";

/// `examples/bank.c`
pub static BANK: &str =
    r"// A filter bank of two bands with overlapping windows: the whole input by one step of the 5/3 wavelet, without blocks.
//
// Two kinds of activations are joined by two streams of the program's own. The first kind splits: it takes the pairs of
// a block and looks at the byte behind them. The second kind smooths the even bytes by the differences on both sides; its
// window of differences begins one before its block, so the stream `high` starts with one more element, a 0.
// For each block of up to 16 pairs the output has the low band and then the high band. unbank.c gives back the input.

// A byte as a difference, from -128 to 127.
int wrap(int d) {
    return ((d + 128) & 255) - 128;
}

int main(void) {
    int even __attribute__((stream)), high __attribute__((stream));
    int i, pairs = osin_len / 2, x, y;
    #pragma omp task output(high << y)
    y = 0;
    for (i = 0; i < pairs; i += 16) {
        int n = pairs - i < 16 ? pairs - i : 16;
        // The bytes of the block, and the next one if a pair follows.
        int m = i + n < pairs ? 2 * n + 1 : 2 * n;
        int w[m], e[n], d[n], around[n + 1], b[2 * n];
        #pragma omp task input(osin >> w[2 * n]) output(even << e[n], high << d[n])
        {
            int k, right;
            for (k = 0; k < n; k++) {
                right = 2 * k + 2 < m ? w[2 * k + 2] : w[2 * k];
                e[k] = w[2 * k];
                d[k] = wrap(w[2 * k + 1] - ((w[2 * k] + right) >> 1));
            }
        }
        #pragma omp task input(even >> e[n], high >> around[n]) output(osout << b[2 * n])
        {
            int k;
            for (k = 0; k < n; k++) {
                b[k] = (e[k] + ((around[k] + around[k + 1] + 2) >> 2)) & 255;
                b[n + k] = around[k + 1] & 255;
            }
        }
    }
    if (osin_len % 2 == 1) {
        #pragma omp task input(osin >> x) output(osout << y)
        y = x;
    }
    return 0;
}
";

/// `examples/crc.c`
pub static CRC: &str =
    r"// The CRC-32 of the input, that of gzip, PNG and `cksum -a crc32b`, as four bytes, the highest first.
//
// A block takes the sum of the bytes before it from the stream `sums`, and passes on that of its own bytes with them. So the blocks
// wait for one another: a sum is a chain. adler.c shows one that needn't be.

const int BLOCK = 4096;
const unsigned POLYNOMIAL = 0xedb88320;

int main(void) {
    unsigned sums __attribute__((stream));
    unsigned before, after;
    int i, sum[4];
    #pragma omp task output(sums << after)
    after = 0xffffffff;
    for (i = 0; i < osin_len; i += BLOCK) {
        int n = osin_len - i < BLOCK ? osin_len - i : BLOCK;
        int a[n];
        #pragma omp task input(osin >> a[n], sums >> before) output(sums << after)
        {
            int k, bit;
            after = before;
            for (k = 0; k < n; k++) {
                after ^= a[k];
                for (bit = 0; bit < 8; bit++) after = after & 1 ? after >> 1 ^ POLYNOMIAL : after >> 1;
            }
        }
    }
    #pragma omp task input(sums >> before) output(osout << sum[4])
    {
        int k;
        for (k = 0; k < 4; k++) sum[k] = ~before >> 24 - 8 * k & 255;
    }
    return 0;
}
";

/// `examples/curve.c`
pub static CURVE: &str =
    r"// Each byte x becomes x * x / 255, by a table that one task makes and all others read.
int main(void) {
    int curve __attribute__((stream));
    int i, t[256];
    #pragma omp task output(curve << t[256])
    {
        int k;
        for (k = 0; k < 256; k++) t[k] = k * k / 255;
    }
    for (i = 0; i < osin_len; i += 64) {
        int n = osin_len - i < 64 ? osin_len - i : 64;
        int a[n], b[n], u[256];
        #pragma omp task input(osin >> a[n], curve >> u[0]) output(osout << b[n])
        {
            int k;
            for (k = 0; k < n; k++) b[k] = u[a[k]];
        }
    }
    return 0;
}
";

/// `examples/dct.c`
pub static DCT: &str =
    r"// A block transform with a quantiser: the cosine transform of eight bytes (DCT-II), in whole numbers, as in JPEG.
//
// Each activation takes up to eight blocks of eight bytes. It writes eight bytes for each block: the coefficients, from
// the mean of the block to its fastest wave, each divided by Q, rounded, and moved by 128. Small coefficients become
// 128, which is what a packer behind this step lives on. What doesn't fill a block is copied.
// undct.c gives back each byte with an error of at most 6.

// The step of the quantiser. From 3 on every coefficient fits a byte.
const int Q = 4;

int main(void) {
    int i;
    for (i = 0; i < osin_len; i += 64) {
        int n = osin_len - i < 64 ? osin_len - i : 64;
        int a[n], b[n];
        #pragma omp task input(osin >> a[n]) output(osout << b[n])
        {
            // 2048 times the cosine of each sixteenth of a half turn, from 0 to 31.
            int cosine[32], m, block, k, j;
            cosine[0] = 2048; cosine[1] = 2009; cosine[2] = 1892; cosine[3] = 1703; cosine[4] = 1448;
            cosine[5] = 1138; cosine[6] = 784; cosine[7] = 400; cosine[8] = 0;
            for (m = 9; m <= 16; m++) cosine[m] = -cosine[16 - m];
            for (m = 17; m < 32; m++) cosine[m] = cosine[32 - m];
            for (block = 0; block + 8 <= n; block += 8) {
                for (k = 0; k < 8; k++) {
                    int sum = 0;
                    for (j = 0; j < 8; j++) sum += (a[block + j] - 128) * cosine[((2 * j + 1) * k) & 31];
                    // The first wave has half the energy of the others: it is divided by the root of 2.
                    if (k == 0) sum = sum * 181 / 256;
                    sum += sum < 0 ? -2048 * Q : 2048 * Q;
                    b[block + k] = sum / (4096 * Q) + 128;
                }
            }
            for (k = n / 8 * 8; k < n; k++) b[k] = a[k];
        }
    }
    return 0;
}
";

/// `examples/delta.c`
pub static DELTA: &str =
    r"// A delta coder: each byte becomes its difference from the one before it, the first one stays.
//
// A window may be longer than its cursor moves: w covers n + 1 bytes of the input and moves by n, so the next window
// begins with this one's last byte. So no activation waits for another one. undelta.c gives back the input.

int main(void) {
    int i, first[1], same;
    if (osin_len == 0) return 0;
    // A burst of 0 looks at a byte and leaves it in the stream.
    #pragma omp task input(osin >> first[0]) output(osout << same)
    same = first[0];
    for (i = 1; i < osin_len; i += 64) {
        int n = osin_len - i < 64 ? osin_len - i : 64;
        int w[n + 1], b[n];
        #pragma omp task input(osin >> w[n]) output(osout << b[n])
        {
            int k;
            for (k = 0; k < n; k++) b[k] = (w[k + 1] - w[k]) & 255;
        }
    }
    return 0;
}
";

/// `examples/divide.c`
pub static DIVIDE: &str =
    r"// 100 divided by each byte of the input: a byte 0 traps, and the output ends before it.

int main(void) {
    int i;
    for (i = 0; i < osin_len; i++) {
        int x, y;
        #pragma omp task input(osin >> x) output(osout << y)
        y = 100 / x;
    }
    return 0;
}
";

/// `examples/first.c`
pub static FIRST: &str = r"int main(void) {
    int a[4], b[4];
    #pragma omp task input(osin >> a[4]) output(osout << b[4])
    { b[0] = a[3]; b[1] = a[2]; b[2] = a[1]; b[3] = a[0]; }
}
";

/// `examples/gain.c`
pub static GAIN: &str =
    r"// The first byte is a gain in eighths. Each other byte is multiplied by it, and cut off at 255.
int main(void) {
    int gain __attribute__((stream));
    int i, first, factor;
    if (osin_len == 0) return 0;
    #pragma omp task input(osin >> first) output(gain << factor)
    factor = first;
    for (i = 1; i < osin_len; i += 64) {
        int n = osin_len - i < 64 ? osin_len - i : 64;
        int a[n], b[n], g[1];
        #pragma omp task input(osin >> a[n], gain >> g[0]) output(osout << b[n])
        {
            int k, loud;
            for (k = 0; k < n; k++) {
                loud = a[k] * g[0] >> 3;
                b[k] = loud > 255 ? 255 : loud;
            }
        }
    }
    return 0;
}
";

/// `examples/noise.c`
pub static NOISE: &str =
    r"// White noise over bytes: what a dither, a test signal or a scrambler is made of. The first four bytes of the input are a seed, the
// lowest first; of each byte behind them the output has the byte plus noise, modulo 256. unnoise.c takes the noise away again.
//
// Each block makes its noise of the seed and its own number alone, so the blocks don't wait for one another: only the seed is read by
// all of them, with a burst of 0.

const int BLOCK = 256;

// A number that looks unlike those of its neighbours: shifts and products modulo 2^32 (the finalizer of MurmurHash3).
unsigned mixed(unsigned x) {
    x = (x ^ x >> 16) * 0x85ebca6b;
    x = (x ^ x >> 13) * 0xc2b2ae35;
    return x ^ x >> 16;
}

// The number of four bytes, the lowest first.
unsigned number(unsigned a, unsigned b, unsigned c, unsigned d) {
    return a | b << 8 | c << 16 | d << 24;
}

// The number behind another one: a xorshift, which goes through all but 0.
unsigned next(unsigned x) {
    x ^= x << 13;
    x ^= x >> 17;
    return x ^ x << 5;
}

int main(void) {
    unsigned seeds __attribute__((stream));
    unsigned seed;
    int i, block = 0, head[4];
    if (osin_len < 4) return 0;
    #pragma omp task input(osin >> head[4]) output(seeds << seed)
    seed = number(head[0], head[1], head[2], head[3]);
    for (i = 4; i < osin_len; i += BLOCK) {
        int n = osin_len - i < BLOCK ? osin_len - i : BLOCK;
        int a[n], b[n];
        unsigned of_all[1];
        block++;
        #pragma omp task input(osin >> a[n], seeds >> of_all[0]) output(osout << b[n])
        {
            int k;
            unsigned x = mixed(of_all[0] + mixed(block)) | 1;
            for (k = 0; k < n; k++) {
                x = next(x);
                b[k] = a[k] + (x >> 24) & 255;
            }
        }
    }
    return 0;
}
";

/// `examples/overlap.c`
pub static OVERLAP: &str = r"int main(void) {
    int w[3], y[1];
    #pragma omp task input(osin >> w[1]) output(osout << y[1])
    { y[0] = w[2]; }
    #pragma omp task input(osin >> w[1]) output(osout << y[1])
    { y[0] = w[2]; }
    #pragma omp task input(osin >> w[1]) output(osout << y[1])
    { y[0] = w[2]; }
}
";

/// `examples/rice.c`
pub static RICE: &str =
    r"// A bit packer: bytes that differ little from those before them take few bits each, by Rice's code.
//
// A difference is folded to a number from 0 to 255, small for small differences of either sign. Its code is as many ones as the number
// has whole multiples of 2^r, a zero, and its last r bits. Each block takes the r that makes it shortest.
// As in squeeze.c a block gets a slot: two bytes of length, the lowest first, then r and the bits, or 255 and the bytes as they are.
// `ospack pack 259` packs the slots; unrice.c takes them apart. What is behind the last whole block is left out.

const int BLOCK = 256;
const int SLOT = 259;
const int RAW = 255;
const int MOST_ONES = 16;

// A difference modulo 256 as a number that is small where it is near 0.
int folded(int difference) {
    difference &= 255;
    return difference < 128 ? 2 * difference : 2 * (256 - difference) - 1;
}

int main(void) {
    int i;
    for (i = 0; i + BLOCK <= osin_len; i += BLOCK) {
        int a[BLOCK], slot[SLOT];
        #pragma omp task input(osin >> a[BLOCK]) output(osout << slot[SLOT])
        {
            int k, r, best = RAW, bits = 8 * BLOCK, number, ones, last, held = 0, at = 3, length = 1 + BLOCK;
            unsigned buffer;
            for (r = 0; r < 7; r++) {
                int sum = 0;
                last = 0;
                for (k = 0; k < BLOCK; k++) {
                    ones = folded(a[k] - last) >> r;
                    sum += ones <= MOST_ONES ? ones + 1 + r : 8 * BLOCK;
                    last = a[k];
                }
                if (sum < bits) {
                    bits = sum;
                    best = r;
                }
            }
            slot[2] = best;
            if (best == RAW) {
                for (k = 0; k < BLOCK; k++) slot[3 + k] = a[k];
            } else {
                last = 0;
                for (k = 0; k < BLOCK; k++) {
                    number = folded(a[k] - last);
                    last = a[k];
                    ones = number >> best;
                    // At most seven bits wait for their byte, and a code has 23 at most.
                    buffer = buffer << ones + 1 | (1u << ones + 1) - 2;
                    buffer = buffer << best | number & (1 << best) - 1;
                    held += ones + 1 + best;
                    while (held >= 8) {
                        held -= 8;
                        slot[at] = buffer >> held & 255;
                        at++;
                    }
                }
                if (held > 0) {
                    slot[at] = buffer << 8 - held & 255;
                    at++;
                }
                length = at - 2;
            }
            slot[0] = length & 255;
            slot[1] = length >> 8;
        }
    }
    return 0;
}
";

/// `examples/squeeze.c`
pub static SQUEEZE: &str =
    r"// A coder of pictures that writes less where its input allows it, and loses nothing: the 5/3 wavelet over strips of eight rows,
// its differences as numbers of a few bits, and of zeros in a row how many there are.
//
// The length of the output stream depends on that of the input alone. So each strip gets a slot of a fixed size: two bytes of
// length, the lowest first, then as many, and what stands behind them is to be ignored. `ospack pack 4099` takes the lengths and
// these bytes alone, and `ospack unpack 4099` makes slots of them again, for unsqueeze.c. What is behind the last whole strip is
// left out.

const int WIDTH = 512;
const int ROWS = 8;
const int STRIP = 4096;
const int SLOT = 4099;
const int BITS = 32768;

int main(void) {
    int i;
    for (i = 0; i + STRIP <= osin_len; i += STRIP) {
        int a[STRIP], slot[SLOT];
        #pragma omp task input(osin >> a[STRIP]) output(osout << slot[SLOT])
        {
            int b[STRIP], order[STRIP], mean[2];
            int k, step, axis, along, n, line, left, right, m, run, number, low, ones, at, length;
            for (k = 0; k < STRIP; k++) b[k] = a[k];
            // Each step in both directions: what a number differs by from the mean of its neighbours; then the others, smoothed
            // by these.
            for (step = 1; step < WIDTH; step *= 2) {
                for (axis = 0; axis < 2; axis++) {
                    along = axis == 0 ? 1 : WIDTH;
                    n = axis == 0 ? WIDTH : STRIP;
                    for (line = 0; line < STRIP / (n / along); line += step) {
                        m = axis == 0 ? line * WIDTH : line;
                        for (k = step * along; k < n; k += 2 * step * along) {
                            left = b[m + k - step * along];
                            right = k + step * along < n ? b[m + k + step * along] : left;
                            b[m + k] -= (left + right) >> 1;
                        }
                        for (k = 0; k + step * along < n; k += 2 * step * along) {
                            right = b[m + k + step * along];
                            left = k > 0 ? b[m + k - step * along] : right;
                            b[m + k] += (left + right + 2) >> 2;
                        }
                    }
                }
            }
            // The numbers, from the widest step to the least: first the mean of all.
            m = 1;
            for (step = WIDTH / 2; step > 0; step /= 2) {
                for (line = 0; line < ROWS; line += step) {
                    for (k = line % (2 * step) == 0 ? step : 0; k < WIDTH; k += line % (2 * step) == 0 ? 2 * step : step) {
                        order[m] = line * WIDTH + k;
                        m++;
                    }
                }
            }
            // Each number as n >> low ones, a zero and its low bits, where low goes by the mean of those before it: mean[0]
            // of the differences, mean[1] of the zeros in a row, each in sixteenths. Behind a zero it is told how many follow,
            // as far as mean[1], where the differences are below one in the mean.
            mean[0] = 64;
            mean[1] = 16;
            at = 0;
            run = 0;
            m = 0;
            while (m < STRIP) {
                number = 0;
                if (run) {
                    while (m < STRIP && number < mean[1] && b[order[m]] == 0) {
                        number++;
                        m++;
                    }
                } else {
                    number = b[order[m]];
                    number = number < 0 ? -2 * number - 1 : 2 * number;
                    m++;
                }
                for (low = 0; 24 << low < mean[run]; low++) ;
                for (ones = number >> low; ones >= 0; ones--) {
                    if (at < BITS && ones > 0) slot[3 + (at >> 3)] |= 1 << (at & 7);
                    at++;
                }
                for (k = 0; k < low; k++) {
                    if (at < BITS) slot[3 + (at >> 3)] |= (number >> k & 1) << (at & 7);
                    at++;
                }
                mean[run] += number - mean[run] / 16;
                run = !run && number == 0 && mean[0] < 16;
            }
            // Where that is no shorter, the bytes as they are.
            length = 1 + (at + 7) / 8;
            if (at > BITS) {
                length = 1 + STRIP;
                slot[2] = 1;
                for (k = 0; k < STRIP; k++) slot[3 + k] = a[k];
            }
            slot[0] = length & 255;
            slot[1] = length >> 8;
        }
    }
    return 0;
}
";

/// `examples/unadpcm.c`
pub static UNADPCM: &str =
    r"// The inverse of adpcm.c: it follows the codes with the same guess and step, and gives the guesses.

// The guess behind a code: its lowest three bits are a size, the fourth one a sign.
int guess_after(int guess, int step, int code) {
    int change = (2 * (code & 7) + 1) * step / 8;
    guess += code & 8 ? -change : change;
    return guess < 0 ? 0 : guess > 255 ? 255 : guess;
}

// The step behind a code.
int step_after(int step, int code) {
    int size = code & 7;
    step = step * (size < 4 ? 58 : size == 4 ? 77 : size == 5 ? 93 : size == 6 ? 112 : 137) / 64;
    return step < 4 ? 4 : step > 127 ? 127 : step;
}

int main(void) {
    int state __attribute__((stream));
    int i, first[2];
    #pragma omp task output(state << first[2])
    { first[0] = 128; first[1] = 16; }
    for (i = 0; i < osin_len; i += 32) {
        int n = osin_len - i < 32 ? osin_len - i : 32;
        int byte[n], before[2], sample[2 * n], after[2];
        #pragma omp task input(osin >> byte[n], state >> before[2]) output(osout << sample[2 * n], state << after[2])
        {
            int k, code, guess = before[0], step = before[1];
            for (k = 0; k < 2 * n; k++) {
                code = k % 2 ? byte[k / 2] & 15 : byte[k / 2] >> 4;
                guess = guess_after(guess, step, code);
                step = step_after(step, code);
                sample[k] = guess;
            }
            after[0] = guess;
            after[1] = step;
        }
    }
    return 0;
}
";

/// `examples/unbank.c`
pub static UNBANK: &str =
    r"// The inverse of bank.c. The bands are parted, the even bytes come back from the low band and the differences on both
// sides, and then the odd bytes from the even ones on both sides.
//
// The last kind of activation needs the first even byte of the next block, which an activation gives that is created
// after it: an activation waits for its elements, whoever writes them.

// A byte as a difference, from -128 to 127.
int wrap(int d) {
    return ((d + 128) & 255) - 128;
}

int main(void) {
    int low __attribute__((stream)), high __attribute__((stream));
    int even __attribute__((stream)), odd __attribute__((stream));
    int i, pairs = osin_len / 2, x, y;
    #pragma omp task output(high << y)
    y = 0;
    for (i = 0; i < pairs; i += 16) {
        int n = pairs - i < 16 ? pairs - i : 16;
        // The even bytes of the block, and the next one if a pair follows.
        int m = i + n < pairs ? n + 1 : n;
        int a[2 * n], l[n], d[n], around[n + 1], e[n], both[m], b[2 * n];
        #pragma omp task input(osin >> a[2 * n]) output(low << l[n], high << d[n])
        {
            int k;
            for (k = 0; k < n; k++) {
                l[k] = a[k];
                d[k] = wrap(a[n + k]);
            }
        }
        #pragma omp task input(low >> l[n], high >> around[n]) output(even << e[n], odd << d[n])
        {
            int k;
            for (k = 0; k < n; k++) {
                e[k] = (l[k] - ((around[k] + around[k + 1] + 2) >> 2)) & 255;
                d[k] = around[k + 1];
            }
        }
        #pragma omp task input(even >> both[n], odd >> d[n]) output(osout << b[2 * n])
        {
            int k, right;
            for (k = 0; k < n; k++) {
                right = k + 1 < m ? both[k + 1] : both[k];
                b[2 * k] = both[k];
                b[2 * k + 1] = (d[k] + ((both[k] + right) >> 1)) & 255;
            }
        }
    }
    if (osin_len % 2 == 1) {
        #pragma omp task input(osin >> x) output(osout << y)
        y = x;
    }
    return 0;
}
";

/// `examples/undct.c`
pub static UNDCT: &str =
    r"// The inverse of dct.c: each byte is the sum of the waves of its block, each as large as its coefficient says.

// The step of the quantiser.
const int Q = 4;

int main(void) {
    int i;
    for (i = 0; i < osin_len; i += 64) {
        int n = osin_len - i < 64 ? osin_len - i : 64;
        int a[n], b[n];
        #pragma omp task input(osin >> a[n]) output(osout << b[n])
        {
            // 2048 times the cosine of each sixteenth of a half turn, from 0 to 31.
            int cosine[32], m, block, k, j;
            cosine[0] = 2048; cosine[1] = 2009; cosine[2] = 1892; cosine[3] = 1703; cosine[4] = 1448;
            cosine[5] = 1138; cosine[6] = 784; cosine[7] = 400; cosine[8] = 0;
            for (m = 9; m <= 16; m++) cosine[m] = -cosine[16 - m];
            for (m = 17; m < 32; m++) cosine[m] = cosine[32 - m];
            for (block = 0; block + 8 <= n; block += 8) {
                for (j = 0; j < 8; j++) {
                    // The first wave counts with the root of a half.
                    int sum = (a[block] - 128) * Q * 1448, byte;
                    for (k = 1; k < 8; k++) sum += (a[block + k] - 128) * Q * cosine[((2 * j + 1) * k) & 31];
                    byte = ((sum + 2048) >> 12) + 128;
                    if (byte < 0) byte = 0;
                    if (byte > 255) byte = 255;
                    b[block + j] = byte;
                }
            }
            for (k = n / 8 * 8; k < n; k++) b[k] = a[k];
        }
    }
    return 0;
}
";

/// `examples/undelta.c`
pub static UNDELTA: &str =
    r"// The inverse of delta.c: a side stream, `last`, carries the last byte of each window to the next one.
//
// Here each activation waits for the one before it, since what it needs is no byte of the input but one of the output.

int main(void) {
    int last __attribute__((stream));
    int i, first, same, next;
    if (osin_len == 0) return 0;
    #pragma omp task input(osin >> first) output(osout << same, last << next)
    { same = first; next = first; }
    for (i = 1; i < osin_len; i += 64) {
        int n = osin_len - i < 64 ? osin_len - i : 64;
        int a[n], b[n], before;
        #pragma omp task input(osin >> a[n], last >> before) output(osout << b[n], last << next)
        {
            int k;
            next = before;
            for (k = 0; k < n; k++) {
                next = (next + a[k]) & 255;
                b[k] = next;
            }
        }
    }
    return 0;
}
";

/// `examples/unnoise.c`
pub static UNNOISE: &str =
    r"// Takes away the noise that noise.c added. The input is the seed, four bytes with the lowest first, and behind it what noise.c wrote.

const int BLOCK = 256;

// A number that looks unlike those of its neighbours: shifts and products modulo 2^32 (the finalizer of MurmurHash3).
unsigned mixed(unsigned x) {
    x = (x ^ x >> 16) * 0x85ebca6b;
    x = (x ^ x >> 13) * 0xc2b2ae35;
    return x ^ x >> 16;
}

// The number of four bytes, the lowest first.
unsigned number(unsigned a, unsigned b, unsigned c, unsigned d) {
    return a | b << 8 | c << 16 | d << 24;
}

// The number behind another one: a xorshift, which goes through all but 0.
unsigned next(unsigned x) {
    x ^= x << 13;
    x ^= x >> 17;
    return x ^ x << 5;
}

int main(void) {
    unsigned seeds __attribute__((stream));
    unsigned seed;
    int i, block = 0, head[4];
    if (osin_len < 4) return 0;
    #pragma omp task input(osin >> head[4]) output(seeds << seed)
    seed = number(head[0], head[1], head[2], head[3]);
    for (i = 4; i < osin_len; i += BLOCK) {
        int n = osin_len - i < BLOCK ? osin_len - i : BLOCK;
        int a[n], b[n];
        unsigned of_all[1];
        block++;
        #pragma omp task input(osin >> a[n], seeds >> of_all[0]) output(osout << b[n])
        {
            int k;
            unsigned x = mixed(of_all[0] + mixed(block)) | 1;
            for (k = 0; k < n; k++) {
                x = next(x);
                b[k] = a[k] - (x >> 24) & 255;
            }
        }
    }
    return 0;
}
";

/// `examples/unrice.c`
pub static UNRICE: &str = r"// Takes apart the slots of rice.c: each gives back a block.

const int BLOCK = 256;
const int SLOT = 259;
const int RAW = 255;

// The difference that was folded to a number.
int unfolded(int number) {
    return number & 1 ? -(number + 1) / 2 : number / 2;
}

int main(void) {
    int i;
    for (i = 0; i + SLOT <= osin_len; i += SLOT) {
        int slot[SLOT], a[BLOCK];
        #pragma omp task input(osin >> slot[SLOT]) output(osout << a[BLOCK])
        {
            int k, r = slot[2], ones, held = 0, at = 3, last = 0;
            unsigned buffer;
            if (r == RAW) {
                for (k = 0; k < BLOCK; k++) a[k] = slot[3 + k];
            } else {
                for (k = 0; k < BLOCK; k++) {
                    // The whole of the next code: more than 24 bits, or all that are left.
                    while (held <= 24 && at < SLOT) {
                        buffer = buffer << 8 | slot[at];
                        held += 8;
                        at++;
                    }
                    ones = 0;
                    while (buffer >> held - 1 & 1) {
                        ones++;
                        held--;
                    }
                    held -= 1 + r;
                    last = last + unfolded((ones << r) + (buffer >> held & (1u << r) - 1)) & 255;
                    a[k] = last;
                }
            }
        }
    }
    return 0;
}
";

/// `examples/unsqueeze.c`
pub static UNSQUEEZE: &str =
    r"// The inverse of squeeze.c, over the slots that `ospack unpack 4099` makes of what was packed.

const int WIDTH = 512;
const int ROWS = 8;
const int STRIP = 4096;
const int SLOT = 4099;

int main(void) {
    int i;
    for (i = 0; i + SLOT <= osin_len; i += SLOT) {
        int slot[SLOT], a[STRIP];
        #pragma omp task input(osin >> slot[SLOT]) output(osout << a[STRIP])
        {
            int b[STRIP], order[STRIP], mean[2];
            int k, step, axis, along, n, line, left, right, m, run, number, low, at;
            // The numbers, from the widest step to the least.
            m = 1;
            for (step = WIDTH / 2; step > 0; step /= 2) {
                for (line = 0; line < ROWS; line += step) {
                    for (k = line % (2 * step) == 0 ? step : 0; k < WIDTH; k += line % (2 * step) == 0 ? 2 * step : step) {
                        order[m] = line * WIDTH + k;
                        m++;
                    }
                }
            }
            mean[0] = 64;
            mean[1] = 16;
            at = 0;
            run = 0;
            m = slot[2] == 1 ? STRIP : 0;
            while (m < STRIP) {
                for (low = 0; 24 << low < mean[run]; low++) ;
                for (number = 0; slot[3 + (at >> 3)] >> (at & 7) & 1; at++) number++;
                at++;
                number = number << low;
                for (k = 0; k < low; k++) {
                    number |= (slot[3 + (at >> 3)] >> (at & 7) & 1) << k;
                    at++;
                }
                mean[run] += number - mean[run] / 16;
                if (run) {
                    m += number;
                    run = 0;
                } else {
                    b[order[m]] = number & 1 ? -(number + 1) / 2 : number / 2;
                    m++;
                    run = number == 0 && mean[0] < 16;
                }
            }
            // The steps of the wavelet, from the last to the first, each taken back.
            for (step = WIDTH / 2; step > 0; step /= 2) {
                for (axis = 1; axis >= 0; axis--) {
                    along = axis == 0 ? 1 : WIDTH;
                    n = axis == 0 ? WIDTH : STRIP;
                    for (line = 0; line < STRIP / (n / along); line += step) {
                        m = axis == 0 ? line * WIDTH : line;
                        for (k = 0; k + step * along < n; k += 2 * step * along) {
                            right = b[m + k + step * along];
                            left = k > 0 ? b[m + k - step * along] : right;
                            b[m + k] -= (left + right + 2) >> 2;
                        }
                        for (k = step * along; k < n; k += 2 * step * along) {
                            left = b[m + k - step * along];
                            right = k + step * along < n ? b[m + k + step * along] : left;
                            b[m + k] += (left + right) >> 1;
                        }
                    }
                }
            }
            for (k = 0; k < STRIP; k++) a[k] = slot[2] == 1 ? slot[3 + k] : b[k];
        }
    }
    return 0;
}
";

/// `examples/unwavelet.c`
pub static UNWAVELET: &str =
    r"// The inverse of wavelet.c: the same steps from the last to the first, each taken back.

// A byte as a difference, from -128 to 127.
int wrap(int d) {
    return ((d + 128) & 255) - 128;
}

int main(void) {
    int i;
    for (i = 0; i < osin_len; i += 64) {
        int n = osin_len - i < 64 ? osin_len - i : 64;
        int a[n], b[n];
        #pragma omp task input(osin >> a[n]) output(osout << b[n])
        {
            int k, step, left, right;
            for (k = 0; k < n; k++) b[k] = a[k];
            for (step = 4; step > 0; step /= 2) {
                for (k = 0; k < n; k += 2 * step) {
                    right = k + step < n ? wrap(b[k + step]) : 0;
                    left = k > 0 ? wrap(b[k - step]) : right;
                    b[k] = (b[k] - ((left + right + 2) >> 2)) & 255;
                }
                for (k = step; k < n; k += 2 * step) {
                    left = b[k - step];
                    right = k + step < n ? b[k + step] : left;
                    b[k] = (b[k] + ((left + right) >> 1)) & 255;
                }
            }
        }
    }
    return 0;
}
";

/// `examples/waiting.c`
pub static WAITING: &str =
    r"// A coder that never starts: it codes each byte by its difference to what a decoder will have made of the byte before.
//
// Its two tasks wait for one another, since nobody writes the first element of `last`. docs/GUIDE.md shows how one sees that.

int main(void) {
    int last __attribute__((stream)), code __attribute__((stream));
    int i, x, before, step, rebuilt, pair[2];
    for (i = 0; i < osin_len; i++) {
        #pragma omp task input(osin >> x, last >> before) output(code << pair[2], osout << step)
        {
            pair[0] = before;
            pair[1] = (x - before) / 4;
            step = pair[1] & 255;
        }
        #pragma omp task input(code >> pair[2]) output(last << rebuilt)
        rebuilt = pair[0] + 4 * pair[1];
    }
    return 0;
}
";

/// `examples/wavelet.c`
pub static WAVELET: &str =
    r"// A lossless wavelet transform of bytes: the 5/3 lifting steps of JPEG 2000, three levels in each block of 64.
//
// The control program, `main`, reads no byte itself. Each turn of its loop creates one activation of the task, which
// takes the next n bytes of the input, `osin`, as its window a, and writes the next n bytes of the output, `osout`,
// from its window b. The activations share nothing, so they run at the same time on as many workers as there are.
// unwavelet.c gives back the input byte for byte: each step adds to one byte what the others say, so it can be undone.

// A byte as a difference, from -128 to 127.
int wrap(int d) {
    return ((d + 128) & 255) - 128;
}

int main(void) {
    int i;
    for (i = 0; i < osin_len; i += 64) {
        int n = osin_len - i < 64 ? osin_len - i : 64;
        int a[n], b[n];
        #pragma omp task input(osin >> a[n]) output(osout << b[n])
        {
            int k, step, left, right;
            for (k = 0; k < n; k++) b[k] = a[k];
            for (step = 1; step < 8; step *= 2) {
                // The high part: what a byte differs by from the mean of its neighbours.
                for (k = step; k < n; k += 2 * step) {
                    left = b[k - step];
                    right = k + step < n ? b[k + step] : left;
                    b[k] = (b[k] - ((left + right) >> 1)) & 255;
                }
                // The low part: a byte with a quarter of its neighbours' differences, which keeps the mean.
                for (k = 0; k < n; k += 2 * step) {
                    right = k + step < n ? wrap(b[k + step]) : 0;
                    left = k > 0 ? wrap(b[k - step]) : right;
                    b[k] = (b[k] + ((left + right + 2) >> 2)) & 255;
                }
            }
        }
    }
    return 0;
}
";
