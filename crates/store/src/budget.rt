// How the lent memory is shared out.
//
// `area` (bytes):
//   [0, 24576)       results of substitution (16,384 in all) and scopes (8,192 in all), one behind the other
//   [24576, 57344)   listed paths of the domain at hand
// `nums` (u32):
//   [0, 1152)        the job's index: 32 files, 4 numbers each, and 128 modules, 8 numbers each
//   [1152, 1216)     the joined files: 32, where each begins in `files` and its length
//   [1472, 6592)     1,024 rows of 5 numbers: connections, states of tables, warnings
//   [6592, 14656)    4,032 words behind `-on_state`, `-off_state` and `-state`, 2 numbers each: 63 for each of 32 switches and 32 port states
//   [14656, 16384)   later layers
pub const AREA: usize = 24576;

pub const JOINED: usize = 1152;

pub const ROWS: usize = 1472;

pub const WORDS: usize = 6592;
