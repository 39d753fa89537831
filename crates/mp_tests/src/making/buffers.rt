//! Buffers that read one wire, and buffers that share none.

/// Two buffers.
pub const TWO_BUFFERS: &str = "wire a 1 0
wire y1 1 0
wire y2 1 0
module b1 BUF : a > y1/3
module b2 BUF : a > y2/4
";

/// Four buffers.
pub const FOUR_BUFFERS: &str = "wire a 1 0
wire y1 1 0
wire y2 1 0
wire y3 1 0
wire y4 1 0
module b1 BUF : a > y1/3
module b2 BUF : a > y2/4
module b3 BUF : a > y3/3
module b4 BUF : a > y4/4
";

/// Sixteen buffers, each with wires of its own: an edit that reaches one of them is evaluated without the others.
pub const SIXTEEN_BUFFERS: &str = "wire a0 1 0
wire y0 1 0
module b0 BUF : a0 > y0/2
wire a1 1 0
wire y1 1 0
module b1 BUF : a1 > y1/2
wire a2 1 0
wire y2 1 0
module b2 BUF : a2 > y2/2
wire a3 1 0
wire y3 1 0
module b3 BUF : a3 > y3/2
wire a4 1 0
wire y4 1 0
module b4 BUF : a4 > y4/2
wire a5 1 0
wire y5 1 0
module b5 BUF : a5 > y5/2
wire a6 1 0
wire y6 1 0
module b6 BUF : a6 > y6/2
wire a7 1 0
wire y7 1 0
module b7 BUF : a7 > y7/2
wire a8 1 0
wire y8 1 0
module b8 BUF : a8 > y8/2
wire a9 1 0
wire y9 1 0
module b9 BUF : a9 > y9/2
wire a10 1 0
wire y10 1 0
module b10 BUF : a10 > y10/2
wire a11 1 0
wire y11 1 0
module b11 BUF : a11 > y11/2
wire a12 1 0
wire y12 1 0
module b12 BUF : a12 > y12/2
wire a13 1 0
wire y13 1 0
module b13 BUF : a13 > y13/2
wire a14 1 0
wire y14 1 0
module b14 BUF : a14 > y14/2
wire a15 1 0
wire y15 1 0
module b15 BUF : a15 > y15/2
";

/// A buffer that hears nothing.
pub const BUFFER: &str = "wire a 1 0
wire y 1 0
module b BUF : a > y/3
";
