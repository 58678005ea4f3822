//! What a configuration says, for every text.
ghost use Rattle.std.specs.Prelude.{◌≡◌, ◌↔◌, ◌<◌, ◌^◌, ℕ, List, Some, Ok};
ghost use Rattle.std.specs.Fmt.{decimal};
ghost use Rattle.cluster_config.specs.Values.{numeral};
ghost use Rattle.cluster_config.specs.Columns.{IsReadRight, read_text};
ghost use Rattle.cluster_config.specs.Drive.{Planned, drive_column};
ghost use Rattle.cluster_config.specs.Keys.{keys_column};
ghost use Rattle.cluster_config.specs.Node.{NodeText, node_column};
ghost use Rattle.cluster_config.specs.Cluster.{ClusterText, cluster_column};
ghost use Rattle.cluster_config.specs.declared.submit.SubmitConfig.{SubmitConfig};
ghost use Rattle.cluster_config.specs.Submit.{submit_column};
ghost use Rattle.cluster_config.specs.declared.watch.WatchConfig.{WatchConfig};
ghost use Rattle.cluster_config.specs.Watch.{watch_column};
ghost use Rattle.cluster_config.specs.Ranges.{IsVersionOf, FitsPlan, FitsNode, FitsCluster, FitsSubmit, FitsWatch};

/// What is read of a text is its configuration, line by line, and what is its configuration is read of it. Any other text is
/// refused at its first line that is wrong or missing.
///
/// It does nothing: its contract is the law.
#[tactic(auto, using(crate::proofs::Columns::read_right))]
pub fn config_laws()
    ensures drive { IsReadRight drive_column }
    ensures keys { IsReadRight keys_column }
    ensures node { IsReadRight node_column }
    ensures cluster { IsReadRight cluster_column }
    ensures submit { IsReadRight submit_column }
    ensures watch { IsReadRight watch_column }
{}

/// The numbers of lines are those that are printed: decimal digits, without a sign or a leading zero.
///
/// It does nothing: its contract is the law.
pub fn number_law()
    ensures { (text : List ℕ) (n : ℕ) → (numeral text ≡ Some n) ↔ ((n < 2 ^ 64) × (text ≡ decimal n)) }
{}

/// What the configurations of plans, nodes, clusters, requests and logs that are watched keep to: a plan gives each
/// command to at least one replica, and to no more than there are. The root service of a node and of a cluster is one
/// that orders commands, a node's number is below n, and behind its n keys there are zeros. Each but a plan has a peer
/// for each of n replicas. A cluster has at most 64 requests, each for a replica below n, and no request has more than
/// 4,088 bytes. Of a log that is watched at least one row is waited for.
///
/// It does nothing: its contract is the law.
pub fn config_ranges()
    ensures drive { (text : List ℕ) (x : Planned) → read_text drive_column text ≡ Ok x → FitsPlan x }
    ensures node { (text : List ℕ) (x : NodeText) → read_text node_column text ≡ Ok x → FitsNode x }
    ensures cluster { (text : List ℕ) (x : ClusterText) → read_text cluster_column text ≡ Ok x → FitsCluster x }
    ensures submit { (text : List ℕ) (x : SubmitConfig) → read_text submit_column text ≡ Ok x → FitsSubmit x }
    ensures watch { (text : List ℕ) (x : WatchConfig) → read_text watch_column text ≡ Ok x → FitsWatch x }
{}

/// The version of frames of a schedule that is to be made, of a node and of a cluster is that of the first line, both ways.
///
/// It does nothing: its contract is the law.
pub fn config_versions()
    ensures drive { (text : List ℕ) (x : Planned) → read_text drive_column text ≡ Ok x → IsVersionOf text x.version }
    ensures node { (text : List ℕ) (x : NodeText) → read_text node_column text ≡ Ok x → IsVersionOf text x.version }
    ensures cluster { (text : List ℕ) (x : ClusterText) → read_text cluster_column text ≡ Ok x → IsVersionOf text x.version }
{}
