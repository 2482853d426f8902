//! What a configuration has by name, and where its passes lead.
use crate::tests::configuration;
use crate::{Action, Conf, Current, Goal, is_log_format, port_of, port_text};
use std::sync::Arc;
use std::test::Fail;
use unit_types::SliceBytes;

fn is_route(goal: Option<Goal>, wanted_first: usize, wanted_count: usize) -> bool {
    match goal {
        Some(Goal::Route { first, count }) => first == wanted_first && count == wanted_count,
        _ => false,
    }
}

fn is_application(goal: Option<Goal>, wanted: usize) -> bool {
    match goal {
        Some(Goal::Application(app)) => app == wanted,
        _ => false,
    }
}

fn goal_of(conf: &Conf, text: &str) -> Option<Goal> {
    conf.goal(SliceBytes::of(text.as_bytes()))
}

fn listener_of(conf: &Conf, name: &str) -> Option<usize> {
    conf.listener(SliceBytes::of(name.as_bytes()))
}

/// Two applications, two listeners, and routes without names.
const SITE: &str =
    r#"{"applications":{"api":{"executable":"count","limits":{"timeout":30},"type":"external"},"site":{"executable":"hello","type":"external"}},"listeners":{"*:8080":{"pass":"routes"},"127.0.0.1:8081":{"pass":"applications/site"}},"routes":[{"action":{"pass":"applications/api"},"match":{"host":["localhost","*.example.com"],"method":["POST","PUT"],"source":"127.0.0.0/8"}},{"action":{"location":"/","return":301},"match":{"uri":["/old","/old/*"]}},{"action":{"pass":"applications/site"}}],"settings":{"http":{"max_body_size":1048576}}}"#;

#[test]
fn has_applications(rt: HostRuntime) -> Result<(), Fail> {
    let conf = configuration(rt.alloc(), SITE)?;
    match conf.applications() {
        [first, second] => {
            assert!(rt; first.name.as_slice() == b"api".as_slice());
            assert!(rt; first.handler.as_slice() == b"count".as_slice());
            assert!(rt; first.timeout == Some(30));
            assert!(rt; second.name.as_slice() == b"site".as_slice());
            assert!(rt; second.timeout.is_none());
        }
        _ => assert!(rt; false, "another number of applications"),
    }
    Ok(())
}

#[test]
fn has_listeners(rt: HostRuntime) -> Result<(), Fail> {
    let conf = configuration(rt.alloc(), SITE)?;
    match conf.listeners() {
        [first, second] => {
            assert!(rt; first.name.as_slice() == b"*:8080".as_slice());
            assert!(rt; first.pass.as_slice() == b"routes".as_slice());
            assert!(rt; second.name.as_slice() == b"127.0.0.1:8081".as_slice());
            assert!(rt; second.pass.as_slice() == b"applications/site".as_slice());
        }
        _ => assert!(rt; false, "another number of listeners"),
    }
    Ok(())
}

#[test]
fn finds_listeners_by_their_exact_name(rt: HostRuntime) -> Result<(), Fail> {
    let conf = configuration(rt.alloc(), SITE)?;
    assert!(rt; listener_of(&conf, "*:8080") == Some(0));
    assert!(rt; listener_of(&conf, "127.0.0.1:8081") == Some(1));
    for name in ["", "*:808", "*:80800", "127.0.0.1:8080", "~"] {
        assert!(rt; listener_of(&conf, name).is_none(), "{name}");
    }
    Ok(())
}

fn pass_of(action: &Action) -> &[u8] {
    match action {
        Action::Pass(text) => text.as_slice(),
        Action::Return(_) => b"",
    }
}

#[test]
fn has_actions(rt: HostRuntime) -> Result<(), Fail> {
    let conf = configuration(rt.alloc(), SITE)?;
    match conf.steps() {
        [first, second, third] => {
            assert!(rt; pass_of(&first.action) == b"applications/api".as_slice());
            match &second.action {
                Action::Return(status) => assert!(rt; *status == 301),
                Action::Pass(_) => assert!(rt; false, "another action"),
            }
            assert!(rt; pass_of(&third.action) == b"applications/site".as_slice());
        }
        _ => assert!(rt; false, "another number of steps"),
    }
    Ok(())
}

#[test]
fn knows_where_passes_lead(rt: HostRuntime) -> Result<(), Fail> {
    let conf = configuration(rt.alloc(), SITE)?;
    assert!(rt; is_route(conf.listener_goal(0), 0, 3));
    assert!(rt; is_application(conf.listener_goal(1), 1));
    assert!(rt; conf.listener_goal(2).is_none());
    assert!(rt; is_application(conf.step_goal(0), 0));
    assert!(rt; conf.step_goal(1).is_none());
    assert!(rt; is_application(conf.step_goal(2), 1));
    assert!(rt; conf.step_goal(3).is_none());
    Ok(())
}

#[test]
fn finds_destinations_by_their_exact_name(rt: HostRuntime) -> Result<(), Fail> {
    let conf = configuration(rt.alloc(), SITE)?;
    assert!(rt; conf.destinations().len() == 3);
    assert!(rt; is_application(goal_of(&conf, "applications/api"), 0));
    assert!(rt; is_application(goal_of(&conf, "applications/site"), 1));
    assert!(rt; is_route(goal_of(&conf, "routes"), 0, 3));
    for text in [
        "",
        "applications/",
        "applications/ap",
        "applications/apis",
        "applications/b",
        "route",
        "routes/",
        "routes/0",
    ] {
        assert!(rt; goal_of(&conf, text).is_none(), "{text}");
    }
    Ok(())
}

/// Routes with names, one of them without steps; passes with variables, and applications of the same names.
const VARIABLES: &str =
    r#"{"applications":{"$host":{"executable":"hello","type":"external"},"a":{"executable":"hello","type":"external"}},"listeners":{"*:1":{"pass":"routes/m"},"*:2":{"pass":"applications/$host"},"*:3":{"pass":"routes/$uri"}},"routes":{"k":[{"action":{"return":200}},{"action":{"pass":"routes/$host"}}],"l":[],"m":[{"action":{"pass":"applications/$host"}},{"action":{"pass":"applications/a"}},{"action":{"pass":"routes/k"}}],"n":[{"action":{"pass":"routes/l"}}]}}"#;

#[test]
fn passes_with_variables_lead_nowhere_yet(rt: HostRuntime) -> Result<(), Fail> {
    let conf = configuration(rt.alloc(), VARIABLES)?;
    assert!(rt; is_route(conf.listener_goal(0), 2, 3));
    assert!(rt; conf.listener_goal(1).is_none());
    assert!(rt; conf.listener_goal(2).is_none());
    assert!(rt; conf.step_goal(0).is_none());
    assert!(rt; conf.step_goal(1).is_none());
    assert!(rt; conf.step_goal(2).is_none());
    assert!(rt; is_application(conf.step_goal(3), 1));
    assert!(rt; is_route(conf.step_goal(4), 0, 2));
    assert!(rt; is_route(conf.step_goal(5), 2, 0));
    Ok(())
}

#[test]
fn finds_named_routes(rt: HostRuntime) -> Result<(), Fail> {
    let conf = configuration(rt.alloc(), VARIABLES)?;
    assert!(rt; conf.destinations().len() == 6);
    assert!(rt; is_application(goal_of(&conf, "applications/$host"), 0));
    assert!(rt; is_application(goal_of(&conf, "applications/a"), 1));
    assert!(rt; is_route(goal_of(&conf, "routes/k"), 0, 2));
    assert!(rt; is_route(goal_of(&conf, "routes/l"), 2, 0));
    assert!(rt; is_route(goal_of(&conf, "routes/m"), 2, 3));
    assert!(rt; is_route(goal_of(&conf, "routes/n"), 5, 1));
    assert!(rt; goal_of(&conf, "routes").is_none());
    assert!(rt; goal_of(&conf, "routes/o").is_none());
    Ok(())
}

#[test]
fn an_empty_document_has_none(rt: HostRuntime) -> Result<(), Fail> {
    let conf = configuration(rt.alloc(), "{}")?;
    assert!(rt; conf.applications().is_empty());
    assert!(rt; conf.listeners().is_empty());
    assert!(rt; conf.destinations().is_empty());
    assert!(rt; listener_of(&conf, "*:80").is_none());
    assert!(rt; goal_of(&conf, "routes").is_none());
    assert!(rt; conf.listener_goal(0).is_none());
    assert!(rt; conf.step_goal(0).is_none());
    Ok(())
}

#[test]
fn finds_ports(rt: HostRuntime) -> Result<(), Fail> {
    assert!(rt; port_of(b"*:8080") == Some(8080));
    assert!(rt; port_of(b"a:1:65535") == Some(65535));
    assert!(rt; port_of(b"x:08080").is_none());
    assert!(rt; port_of(b"x:0").is_none());
    assert!(rt; port_of(b"x").is_none());
    assert!(rt; port_text(b"x:08080").expect(&rt, "a text") == b"08080".as_slice());
    Ok(())
}

#[test]
fn knows_formats_of_logs(rt: HostRuntime) -> Result<(), Fail> {
    assert!(rt; is_log_format(b"$remote_addr $status"));
    assert!(rt; !is_log_format(b"$none"));
    Ok(())
}

#[test]
fn shares_a_configuration(rt: HostRuntime) -> Result<(), Fail> {
    let conf = Arc::new(rt.alloc(), configuration(rt.alloc(), "{}")?)?;
    let current = Current { number: 3, conf };
    let other = current.another()?;
    assert!(rt; other.number == 3 && other.conf.max_body() == 8388608);
    Ok(())
}
