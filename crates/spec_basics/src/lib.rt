// Facts on tests and lists that the other crates cite. In specs/: Elements defines membership `In`, `any` and `concat_map`; Lists has their
// laws; Tests has the laws of Bool.
#![tactic(auto)]
