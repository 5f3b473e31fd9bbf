// Design resolution: lookups in the module lines, ports, connections and paths.
#![tactic(auto)]
