// The questions that kernels and tools in other languages ask. The result of each is the answer's number, 0 where there is a
// value; the values go to a lent buffer, and a refusal writes nothing. Their numbers, lent buffers and parameters are the C
// interface's.
#![tactic(auto)]

mod find;
mod image;
mod platform_info;
mod table;
