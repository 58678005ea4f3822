//! What a run is asked to do: the words of its command line, and the configuration texts that its jobs read.
//!
//! | Words after the program's name | Job | Configuration |
//! |---|---|---|
//! | `replay report`, `replay frames`, `replay vectors` | `Job::Replay` | none |
//! | `drive report`, `drive schedule` | `Job::Drive` | `Config::Drive`, a plan |
//! | `keys` | `Job::Keys` | `Config::Keys` |
//! | `node` | `Job::Node` | `Config::Node` |
//! | `cluster` | `Job::Cluster` | `Config::Cluster` |
//! | `submit` | `Job::Submit` | `Config::Submit` |
//! | `watch` | `Job::Watch` | `Config::Watch` |
//!
//! `read_words` reads the words by a command of clap: `job_of` of `specs/Words.antt` is what that command makes of any list of
//! words, and `words_law` says that words without a hyphen name a job exactly where they are its list. The program's own name
//! isn't looked at, there is neither help nor a version, and behind a word `--` each word is a value, also one with a hyphen.
//!
//! A configuration is lines in a fixed order, each a name, one space, a value and a line feed. Every line of a job stands there
//! once, unless the table says how often, and nothing follows the last one.
//!
//! | Line | Value | drive | keys | node | cluster | submit | watch |
//! |---|---|---|---|---|---|---|---|
//! | `ritas` | the version of frames, 1 to 3 | x | x | x | x | x | x |
//! | `session` | 0 to 2^64 - 1 | x | x | x | x | | |
//! | `n` | 1 to 31 | x | x | x | x | x | x |
//! | `f` | n is at least 3f + 1 | x | x | x | x | x | x |
//! | `root` | 1 to 7, and 6 or 7 for node and cluster | x | | x | x | | |
//! | `vect` | `echo` or `reliable` | x | | x | x | | |
//! | `master` | a key | x | x | | x | | |
//! | `me` | below n | | | x | | | |
//! | `row` | n keys, one behind the other | | | x | | | |
//! | `coin` | a key | | | x | | | |
//! | `order` | `sweep` or `random` | x | | | | | |
//! | `attack` | `none`, `silent`, `twoface`, `flip` or `garbage` | x | | | | | |
//! | `start` | 0 to 2^64 - 1 | x | | | | | |
//! | `commands` | 0 to 10,000 | x | | | | | |
//! | `copies` | 1 to n; where the line is missing it is 1 | x | | | | | |
//! | `peer` | an address; n lines, replica 0 first | | | x | x | x | x |
//! | `client` | an address | | | x | | | |
//! | `limit` | 1 to 2^64 - 1 | | | x | x | | |
//! | `until` | 0 to 2^32 - 1, and from 1 on for watch | | | x | x | | x |
//! | `journal` | `yes` or `no`; where the line is missing it is `no` | | | x | | | |
//! | `request` | a request; 0 to 64 lines for cluster, and one for submit | | | | x | x | |
//!
//! Numbers are decimal, without a sign or a leading zero (`number_law`). A key is 64 hexadecimal digits, in either case. An
//! address is four numbers up to 255 joined by dots, a colon and a port from 1 to 65,535. A request is a replica below n, a client
//! and a number below 2^32 each, and its bytes in 2 to 8,176 hexadecimal digits, or `-` for none, with a space between them.
//!
//! The columns are the values `drive_column` to `watch_column` of `specs/`; `specs/Columns.antt` says what a text of such a
//! column's lines is, and which of its lines is the first that is wrong or missing. `read_config` answers the one or the other, for
//! every text, and `config_laws` says that it is so. A text is looked at to its end before memory is taken, so where memory is
//! wanting the text is right. `config_ranges` says what a configuration that is read keeps to: the copies, the places below n, as
//! many peers as replicas, the zeros behind a row's keys, and how many requests there are, of how many bytes. `config_versions` says
//! that the version of frames is that of the first line. Keys, requests, queries and pieces are alike in all versions.
#![tactic(auto)]

mod cluster;
mod command;
mod config;
mod cuts;
mod drive;
mod job;
mod keys;
mod laws;
mod lines;
mod node;
mod requests;
mod submit;
mod values;
mod views;
mod watch;
mod words;

pub use cluster::ClusterConfig;
pub use config::{Config, ConfigFault, read_config};
pub use job::Job;
pub use keys::KeysConfig;
pub use laws::{config_laws, config_ranges, config_versions, number_law};
pub use node::NodeConfig;
pub use requests::{Request, Requests};
pub use submit::SubmitConfig;
pub use watch::WatchConfig;
pub use words::{WordsFault, read_words, words_law};
