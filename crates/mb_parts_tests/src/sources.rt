//! Tests of a list as a source, and of orders that can go to nobody.
use mb_msg::{ActorId, Order};
use mb_source::{OrderList, RecordedSource, has_nobody};

#[test]
fn a_list_gives_each_of_its_orders_once(rt: HostRuntime) {
    let (first, second) = (Order::tell(ActorId(1), 7, 5), Order::stop(ActorId(0)));
    let Ok(orders) = vec![in rt.alloc(); first, second] else {
        return;
    };
    let mut source = RecordedSource::new(OrderList::new(orders));
    assert!(&rt; source.next() == Some(first));
    source.take_back(first);
    assert!(&rt; source.next() == Some(second));
    assert!(&rt; source.next().is_none());
    let OrderList { orders, next } = source.into_source();
    assert!(&rt; orders.len() == 2 && next == 2);
}

#[test]
fn an_envelope_goes_to_an_actor_and_a_stop_also_to_the_guardian(rt: HostRuntime) {
    for (to, tell, stop) in [
        (0, true, false),
        (1, false, false),
        (2, false, false),
        (3, true, true),
    ] {
        assert!(&rt; has_nobody(2, &Order::tell(ActorId(to), 7, 5)) == tell);
        assert!(&rt; has_nobody(2, &Order::stop(ActorId(to))) == stop);
    }
    let never = Order {
        times: 0,
        ..Order::stop(ActorId(9))
    };
    assert!(&rt; !has_nobody(2, &never));
}
